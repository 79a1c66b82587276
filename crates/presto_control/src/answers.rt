//! What a reply of the control program answers.
ghost use Rattle.std.specs.Prelude.{◌≡◌};
ghost use Rattle.presto_control.specs.Answers.{coded, answer_of, answer_in};

use presto_rpc::{Control, ControlReply, read_control_reply};
use stable::{Battery, State};

/// The transaction number of the call.
pub const XID: u32 = 0x50524553;

/// What the server answers.
#[derive(Clone, Copy, Debug, PartialEq, Eq)]
pub enum Answer {
    /// It was done.
    Done,
    /// So many sectors are still dirty.
    Left(u32),
    /// The battery is low.
    BatteryLow,
    /// The unit isn't DOWN.
    NotDown,
    /// The server has no such volume.
    NoVolume,
    /// How the volume's unit stands, and how many puts it took since the server began.
    Status {
        state: State,
        dirty: u32,
        battery: Battery,
        puts: u64,
    },
    /// The call was refused, or the reply has no meaning.
    Refused,
}

// The answer of a code, with its number.
fn coded(code: u32, n: u32) -> Answer
    ensures { result ≡ coded code n }
{
    match code {
        0 => Answer::Done,
        1 => Answer::Left(n),
        2 => Answer::BatteryLow,
        3 => Answer::NotDown,
        4 => Answer::NoVolume,
        _ => Answer::Refused,
    }
}

// The answer of what a datagram says, where it is a reply.
fn answer_of(reply: ControlReply) -> Option<Answer>
    ensures { result ≡ answer_of reply }
{
    match reply {
        ControlReply::Answer { code, n } => Some(coded(code, n)),
        ControlReply::Status {
            state,
            dirty,
            battery,
            puts,
        } => Some(Answer::Status {
            state,
            dirty,
            battery,
            puts,
        }),
        ControlReply::Refused => Some(Answer::Refused),
        ControlReply::Other => None,
    }
}

/// What a datagram answers to what was asked, None where it is no reply to it.
pub fn read_answer(bytes: &[u8], asked: &Control) -> Option<Answer>
    ensures { result ≡ answer_in asked.now bytes.now }
{
    answer_of(read_control_reply(bytes, XID, asked))
}
