//! What a reply of the control program says.
ghost use Rattle.std.specs.Prelude.{◌≡◌};
ghost use Rattle.xdr_rpc.specs.Words.{Gives};
ghost use Rattle.presto_rpc.specs.Replies.{state_of, battery_of, reply_to, result_in, is_answer, answer_in, status_in, said_in, said, control_reply};

use crate::control::Control;
use stable::{Battery, Cause, State};
use xdr_rpc::word_at;

/// What a datagram says to a call of the control program: an answer by its code; the status of a volume, with the sectors that are dirty and the puts so far; a reply of any other form; or it is no reply to this call.
#[derive(Clone, Copy, Debug, PartialEq, Eq)]
pub enum ControlReply {
    Answer {
        code: u32,
        n: u32,
    },
    Status {
        state: State,
        dirty: u32,
        battery: Battery,
        puts: u64,
    },
    Refused,
    Other,
}

/// A second word that tells a reply (RFC 1057 8, msg_type).
const REPLY: u32 = 1;

fn state_from(number: u32) -> Option<State>
    ensures { result ≡ state_of number }
{
    match number {
        0 => Some(State::Down),
        1 => Some(State::Up),
        2 => Some(State::Error(Cause::Disk)),
        3 => Some(State::Error(Cause::Board)),
        4 => Some(State::Error(Cause::Battery)),
        _ => None,
    }
}

fn battery_from(number: u32) -> Option<Battery>
    ensures { result ≡ battery_of number }
{
    match number {
        0 => Some(Battery::Low),
        1 => Some(Battery::Good),
        _ => None,
    }
}

#[tactic(auto, unfolding(crate::specs::Replies::reply_to))]
fn reply_at(xid: u32, bytes: &[u8]) -> Option<&[u8]>
    ensures { Gives (λ rest. rest.now) result (reply_to xid bytes.now) }
{
    let (number, rest) = word_at(bytes)?;
    let (kind, rest) = word_at(rest)?;
    if number == xid && kind == REPLY {
        Some(rest)
    } else {
        None
    }
}

#[tactic(auto, unfolding(crate::specs::Replies::result_in))]
fn result_at(bytes: &[u8]) -> Option<&[u8]>
    ensures { Gives (λ rest. rest.now) result (result_in bytes.now) }
{
    let (denied, rest) = word_at(bytes)?;
    let (flavour, rest) = word_at(rest)?;
    let (size, rest) = word_at(rest)?;
    let (state, rest) = word_at(rest)?;
    if denied == 0 && flavour == 0 && size == 0 && state == 0 {
        Some(rest)
    } else {
        None
    }
}

fn answers(asked: &Control, code: u32, n: u32) -> bool
    ensures { result ≡ is_answer asked.now code n }
{
    match asked {
        Control::Command { .. } => code <= 4 && (code == 1 || n == 0),
        Control::Status { .. } => code == 4 && n == 0,
        Control::Halt => code == 0 && n == 0,
        _ => false,
    }
}

#[tactic(auto, unfolding(crate::specs::Replies::answer_in))]
fn answer_at(asked: &Control, code: u32, bytes: &[u8]) -> Option<ControlReply>
    ensures { result ≡ answer_in asked.now code bytes.now }
{
    let (n, _rest) = word_at(bytes)?;
    if answers(asked, code, n) {
        Some(ControlReply::Answer { code, n })
    } else {
        None
    }
}

#[tactic(auto, unfolding(crate::specs::Replies::status_in))]
fn status_at(bytes: &[u8]) -> Option<ControlReply>
    ensures { result ≡ status_in bytes.now }
{
    let (state, rest) = word_at(bytes)?;
    let (dirty, rest) = word_at(rest)?;
    let (battery, rest) = word_at(rest)?;
    let (high, rest) = word_at(rest)?;
    let (low, _rest) = word_at(rest)?;
    let state = state_from(state)?;
    let battery = battery_from(battery)?;
    let puts = high as u64 * 4294967296 + low as u64;
    Some(ControlReply::Status {
        state,
        dirty,
        battery,
        puts,
    })
}

#[tactic(auto, unfolding(crate::specs::Replies::said_in))]
fn said_at(asked: &Control, bytes: &[u8]) -> Option<ControlReply>
    ensures { result ≡ said_in asked.now bytes.now }
{
    let (code, rest) = word_at(bytes)?;
    match asked {
        Control::Status { .. } if code == 0 => status_at(rest),
        _ => answer_at(asked, code, rest),
    }
}

#[tactic(auto, unfolding(crate::specs::Replies::said))]
fn said_by(asked: &Control, bytes: &[u8]) -> Option<ControlReply>
    ensures { result ≡ said asked.now bytes.now }
{
    let result = result_at(bytes)?;
    said_at(asked, result)
}

/// What a datagram says to what was asked by a call of this transaction number (docs/FORMATS.md, "Control program"). Bytes after the last word are passed over. It takes no memory.
pub fn read_control_reply(bytes: &[u8], xid: u32, asked: &Control) -> ControlReply
    ensures { result ≡ control_reply xid asked.now bytes.now }
{
    let Some(rest) = reply_at(xid, bytes) else {
        return ControlReply::Other;
    };
    match said_by(asked, rest) {
        Some(said) => said,
        None => ControlReply::Refused,
    }
}
