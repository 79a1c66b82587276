//! The datagram of a control.
ghost use Rattle.std.specs.Prelude.{◌≡◌, ◌<◌, ◌≤◌, ◌^◌, ◌++◌, List, ℕ, [], ◌∷◌, length, Some};
ghost use Rattle.xdr_rpc.specs.Words.{words};
ghost use Rattle.presto_rpc.specs.Sending.{command_number, IsAsked, Fits, asked_bytes, control_bytes, control_in};

use crate::control::Control;
use byteorder::{BigEndian, ByteOrder};
use lists::InPlace;
use stable::Command;

/// The number of the control program.
const PROGRAM: u32 = 0x20001094;

/// The procedure that asks for the status.
const STATUS: u32 = 5;

/// The procedure that ends the server.
const HALT: u32 = 6;

/// The datagram of a control: at most 64 bytes, kept in place.
pub type ControlBytes = InPlace<u8, 64>;

#[tactic(auto, unfolding(xdr_rpc::specs::Words::words))]
fn bytes_of_words(numbers: &[u32]) -> ControlBytes
    requires { length numbers.now ≤ 16 }
    ensures { result ≡ words numbers.now }
{
    let mut bytes = [0; 64];
    let written = &mut bytes[..4 * numbers.len()];
    BigEndian::write_u32_into(numbers, written);
    ControlBytes::copy(written)
}

fn number_of(command: Command) -> u32
    ensures { result ≡ command_number command }
{
    match command {
        Command::Up => 1,
        Command::Down => 2,
        Command::Flush => 3,
        Command::Reset => 4,
    }
}

#[tactic(auto, unfolding(crate::specs::Sending::asked_bytes, xdr_rpc::specs::Sending::sent_as, xdr_rpc::specs::Sending::unix_body, xdr_rpc::specs::Words::opaque_bytes, xdr_rpc::specs::Words::words))]
fn on_volume(xid: u32, procedure: u32, volume: u32) -> ControlBytes
    ensures bytes { result ≡ asked_bytes xid procedure (words (volume ∷ [])) }
    ensures fits { volume < 2 ^ 32 }
{
    bytes_of_words(&[
        xid, 0, 2, PROGRAM, 1, procedure, 1, 20, 0, 0, 0, 0, 0, 0, 0, volume,
    ])
}

#[tactic(auto, unfolding(crate::specs::Sending::asked_bytes, xdr_rpc::specs::Sending::sent_as, xdr_rpc::specs::Sending::unix_body, xdr_rpc::specs::Words::opaque_bytes, xdr_rpc::specs::Words::words))]
fn to_halt(xid: u32) -> ControlBytes
    ensures { result ≡ asked_bytes xid 6 [] }
{
    bytes_of_words(&[xid, 0, 2, PROGRAM, 1, HALT, 1, 20, 0, 0, 0, 0, 0, 0, 0])
}

fn bytes_for(xid: u32, control: Control) -> ControlBytes
    requires { IsAsked control }
    ensures bytes { result ≡ control_bytes xid control }
    ensures fits { Fits control }
{
    match control {
        Control::Command { volume, command } => on_volume(xid, number_of(command), volume),
        Control::Status { volume } => on_volume(xid, STATUS, volume),
        _ => to_halt(xid),
    }
}

/// The datagram that asks for a command, a status or the end (docs/FORMATS.md, "Control program"): a call by user 0 without groups, with stamp 0, from a machine without a name. It takes no memory.
pub fn write_control(xid: u32, control: &Control) -> ControlBytes
    requires { IsAsked control.now }
    ensures bytes { result ≡ control_bytes xid control.now }
    // It is read as that control, whatever follows it.
    ensures read_back { (rest : List ℕ) → control_in (result ++ rest) ≡ Some control.now }
{
    bytes_for(xid, *control)
}
