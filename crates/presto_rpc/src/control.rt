//! What a call of the control program asks for.
ghost use Rattle.std.specs.Prelude.{◌≡◌};
ghost use Rattle.presto_rpc.specs.declared.control.Control.{Control};
ghost use Rattle.presto_rpc.specs.Controls.{volume_arg, on_volume, control, control_by};

use stable::Command;
use xdr_rpc::{RpcCall, word_at};

/// What a call of the control program asks for: a command to a volume, a volume's status, the end of the server; or what is answered by `void_reply`, `too_weak_reply` and `garbage_reply` of `xdr_rpc`.
#[derive(Clone, Copy, Debug, PartialEq, Eq)]
pub enum Control {
    Command { volume: u32, command: Command },
    Status { volume: u32 },
    Halt,
    Void,
    TooWeak,
    Garbage,
}

#[tactic(auto, unfolding(crate::specs::Controls::volume_arg))]
fn command_at(args: &[u8], command: Command) -> Control
    ensures { result ≡ on_volume (volume_arg args.now) (λ volume. Control.Command volume command) }
{
    match word_at(args) {
        Some((volume, _rest)) => Control::Command { volume, command },
        None => Control::Garbage,
    }
}

#[tactic(auto, unfolding(crate::specs::Controls::volume_arg))]
fn status_at(args: &[u8]) -> Control
    ensures { result ≡ on_volume (volume_arg args.now) (λ volume. Control.Status volume) }
{
    match word_at(args) {
        Some((volume, _rest)) => Control::Status { volume },
        None => Control::Garbage,
    }
}

fn control_of(procedure: u32, uid: u16, args: &[u8]) -> Control
    ensures { result ≡ control_by procedure uid args.now }
{
    if procedure == 0 || procedure > 6 {
        return Control::Void;
    }
    if procedure == 5 {
        return status_at(args);
    }
    if uid != 0 {
        return Control::TooWeak;
    }
    match procedure {
        1 => command_at(args, Command::Up),
        2 => command_at(args, Command::Down),
        3 => command_at(args, Command::Flush),
        4 => command_at(args, Command::Reset),
        _ => Control::Halt,
    }
}

/// Reads a call of the control program (docs/FORMATS.md, "Control program"). All but STATUS is for user 0 alone, and a caller of flavour 0 is nobody. It takes no memory.
pub fn read_control(call: &RpcCall) -> Control
    ensures { result ≡ control call.now }
{
    control_of(call.procedure, call.cred.uid, call.args.bytes())
}
