//! The replies of the control program.
ghost use Rattle.std.specs.Prelude.{◌≡◌, ◌<◌, ◌^◌, ◌++◌, List, ℕ, true};
ghost use Rattle.presto_rpc.specs.declared.control.Control.{Control};
ghost use Rattle.presto_rpc.specs.declared.reply_reading.ControlReply.{ControlReply};
ghost use Rattle.presto_rpc.specs.Replies.{state_number, battery_number, answer_bytes, status_bytes, is_answer, control_reply};

use stable::{Battery, Cause, Snapshot, State};
use xdr_rpc::{ShortReply, reply_of_words};

fn number_of_state(state: State) -> u32
    ensures { result ≡ state_number state }
{
    match state {
        State::Down => 0,
        State::Up => 1,
        State::Error(Cause::Disk) => 2,
        State::Error(Cause::Board) => 3,
        State::Error(Cause::Battery) => 4,
    }
}

fn number_of_battery(battery: Battery) -> u32
    ensures { result ≡ battery_number battery }
{
    match battery {
        Battery::Good => 1,
        Battery::Low => 0,
    }
}

/// The reply to a command or to HALT, and the one for a volume that isn't open: a code and a number (docs/FORMATS.md, "Control program"). It takes no memory.
#[tactic(auto, unfolding(crate::specs::Replies::answer_bytes))]
pub fn write_answer(xid: u32, code: u32, n: u32) -> ShortReply
    ensures bytes { result ≡ answer_bytes xid code n }
    // It is read as that answer by whom it is for, whatever follows it.
    ensures read_back { (asked : Control) (rest : List ℕ) → is_answer asked code n ≡ true → control_reply xid asked (result ++ rest) ≡ ControlReply.Answer code n }
{
    reply_of_words(&[xid, 1, 0, 0, 0, 0, code, n])
}

#[tactic(auto, unfolding(crate::specs::Replies::status_bytes))]
fn status_reply(xid: u32, state: State, dirty: u32, battery: Battery, puts: u64) -> ShortReply
    ensures bytes { result ≡ status_bytes xid state dirty battery puts }
    ensures dirty { dirty < 2 ^ 32 }
    ensures puts { puts < 2 ^ 64 }
{
    let state = number_of_state(state);
    let battery = number_of_battery(battery);
    let high = (puts / 4294967296) as u32;
    let low = (puts % 4294967296) as u32;
    reply_of_words(&[xid, 1, 0, 0, 0, 0, 0, state, dirty, battery, high, low])
}

/// The reply to STATUS of an open volume (docs/FORMATS.md, "Control program"). It takes no memory.
pub fn write_status(xid: u32, snapshot: &Snapshot) -> ShortReply
    ensures bytes { let s = snapshot.now in result ≡ status_bytes xid s.state s.dirty s.battery s.puts }
    // It is read as that status, whatever follows it.
    ensures read_back { (volume : ℕ) (rest : List ℕ) → let s = snapshot.now in control_reply xid (Control.Status volume) (result ++ rest) ≡ ControlReply.Status s.state s.dirty s.battery s.puts }
{
    status_reply(
        xid,
        snapshot.state,
        snapshot.dirty,
        snapshot.battery,
        snapshot.puts,
    )
}
