//! What an event of the link means to who waits for a reply.
ghost use Rattle.presto_control.specs.News.{Hears, news_by};
ghost use Rattle.std.specs.Prelude.{◌≡◌};

use crate::answers::{Answer, read_answer};
use presto_rpc::Control;
use rig::{Event, Link, Packet};

/// What an event of the link means to who waits for a reply.
#[derive(Clone, Copy, Debug, PartialEq, Eq)]
pub enum News {
    /// The reply came.
    Reply(Answer),
    /// A datagram came that is no reply to the call.
    Other,
    /// Nothing came for now.
    Idle,
    /// Nothing will come any more.
    Closed,
    /// The link failed.
    Failed,
}

// A datagram answers, or is another one.
fn news_by(answer: Option<Answer>) -> News
    ensures { result ≡ news_by answer }
{
    match answer {
        Some(answer) => News::Reply(answer),
        None => News::Other,
    }
}

/// Takes the link's next event.
pub fn hear<L: Link>(asked: &Control, link: &mut L) -> News
    ensures { Hears L.Link asked.now link.old link.new result }
{
    let mut packet = Packet::new();
    match link.recv(&mut packet) {
        Event::Datagram(_) => news_by(read_answer(packet.bytes(), asked)),
        Event::Idle => News::Idle,
        Event::Closed => News::Closed,
        Event::Failed => News::Failed,
    }
}
