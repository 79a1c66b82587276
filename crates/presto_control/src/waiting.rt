//! The wait for a reply.
ghost use Rattle.presto_control.specs.Waiting.{Waited};

use crate::answers::Answer;
use crate::news::{News, hear};
use presto_rpc::Control;
use rig::Link;

/// How many times nothing comes, until a wait ends.
const IDLES: u32 = 5;

/// How many datagrams that are no reply come, until a wait ends.
const OTHERS: u32 = 64;

/// How a call ended.
#[derive(Clone, Copy, Debug, PartialEq, Eq)]
pub enum Ending {
    /// A reply came.
    Replied(Answer),
    /// None came.
    Silent,
    /// The link failed.
    Broken,
}

/// Waits for a reply, until it comes, five times nothing came, 64 other datagrams came, or the link ends or fails.
pub fn wait<L: Link>(asked: &Control, link: &mut L) -> Ending
    ensures { Waited L.Link asked.now link.old link.new result }
{
    let mut idles = 0;
    let mut others = 0;
    'waiting: loop {
        match hear(asked, link) {
            News::Reply(answer) => return Ending::Replied(answer),
            News::Idle if idles + 1 < IDLES => idles += 1,
            News::Other if others + 1 < OTHERS => others += 1,
            News::Failed => return Ending::Broken,
            _ => return Ending::Silent,
        }
    }
}
