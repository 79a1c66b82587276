//! What a datagram means.
ghost use Rattle.std.specs.Prelude.{◌≡◌, ◌≤◌, ℕ, length, IfOk, OnErr, IsOk};
ghost use Rattle.files_model.specs.declared.call.Call.{Call};
ghost use Rattle.xdr_rpc.specs.declared.call.RpcCall.{RpcCall};
ghost use Rattle.xdr_rpc.specs.Order.{call_of};
ghost use Rattle.xdr_rpc.specs.Sending.{sent_as};
ghost use Rattle.presto_rpc.specs.Controls.{control};
ghost use Rattle.datagrams.specs.Meaning.{nfs_meaning, on_open, control_meaning, asked, meaning};
ghost use Rattle.datagrams.specs.Sending.{Sends};

use files_model::{Call, Cred, NoMemory};
use nfs2_wire::{NfsCall, read_arguments, stale_reply};
use presto_rpc::{Control, read_control, write_answer};
use stable::Command;
use std::alloc::Global;
use xdr_rpc::{RpcCall, RpcRead, ShortReply, garbage_reply, read_rpc, too_weak_reply, void_reply};

/// The programs of NFS and of MOUNT (RFC 1094 2.1 and appendix A.3).
const NFS_PROGRAM: u32 = 100003;

const MOUNT_PROGRAM: u32 = 100005;

/// The code of a volume that isn't open (docs/FORMATS.md, "Control program").
const NO_VOLUME: u32 = 4;

/// What a datagram means. Volumes are those that are open.
#[derive(Drop)]
pub enum Datagram {
    /// Nothing that is answered.
    NoMeaning,
    /// It is answered by these bytes, whatever the server has done, and belongs to no history.
    Outside(ShortReply),
    /// A call on a volume, which is served.
    Asks {
        xid: u32,
        volume: u32,
        cred: Cred,
        call: Call,
    },
    /// A call of MOUNT.
    Mount(RpcCall),
    /// A command to the store of a volume, by user 0.
    Command {
        xid: u32,
        volume: u32,
        command: Command,
    },
    /// The status of the store of a volume is asked for.
    Status {
        xid: u32,
        volume: u32,
    },
    /// The server is to end, by user 0.
    Halt {
        xid: u32,
    },
}

fn nfs_datagram(rpc: RpcCall, read: NfsCall) -> Datagram
    ensures { result ≡ nfs_meaning rpc read }
{
    match read {
        NfsCall::Call { volume, call } => Datagram::Asks {
            xid: rpc.xid,
            volume,
            cred: rpc.cred,
            call,
        },
        NfsCall::Stale => Datagram::Outside(stale_reply(rpc.xid)),
        NfsCall::Void => Datagram::Outside(void_reply(rpc.xid)),
        NfsCall::Garbage => Datagram::Outside(garbage_reply(rpc.xid)),
    }
}

fn on_open(xid: u32, volume: u32, volumes: u32, asked: Datagram) -> Datagram
    ensures { result ≡ on_open xid volume volumes asked }
{
    if volume < volumes {
        asked
    } else {
        Datagram::Outside(write_answer(xid, NO_VOLUME, 0))
    }
}

fn control_datagram(xid: u32, control: Control, volumes: u32) -> Datagram
    ensures { result ≡ control_meaning xid control volumes }
{
    match control {
        Control::Command { volume, command } => {
            let asked = Datagram::Command {
                xid,
                volume,
                command,
            };
            on_open(xid, volume, volumes, asked)
        }
        Control::Status { volume } => {
            on_open(xid, volume, volumes, Datagram::Status { xid, volume })
        }
        Control::Halt => Datagram::Halt { xid },
        Control::Void => Datagram::Outside(void_reply(xid)),
        Control::TooWeak => Datagram::Outside(too_weak_reply(xid)),
        Control::Garbage => Datagram::Outside(garbage_reply(xid)),
    }
}

#[tactic(auto, unfolding(crate::specs::Meaning::asked))]
fn datagram_of(alloc: Global, rpc: RpcCall, volumes: u32) -> Result<Datagram, NoMemory>
    ensures { IfOk result (λ datagram. datagram ≡ asked rpc volumes) }
{
    match rpc.program {
        NFS_PROGRAM => {
            let read = read_arguments(alloc, &rpc, volumes)?;
            Ok(nfs_datagram(rpc, read))
        }
        MOUNT_PROGRAM => Ok(Datagram::Mount(rpc)),
        _ => Ok(control_datagram(rpc.xid, read_control(&rpc), volumes)),
    }
}

#[tactic(auto, unfolding(crate::specs::Meaning::meaning))]
fn read_exactly(alloc: Global, bytes: &[u8], volumes: u32) -> Result<Datagram, NoMemory>
    requires { length bytes.now ≤ 9216 }
    ensures ok { IfOk result (λ datagram. datagram ≡ meaning bytes.now volumes) }
    ensures err { OnErr result (IsOk (call_of bytes.now)) }
{
    match read_rpc(alloc, bytes)? {
        RpcRead::NoReply => Ok(Datagram::NoMeaning),
        RpcRead::Refuse(reply) => Ok(Datagram::Outside(reply)),
        RpcRead::Call(rpc) => datagram_of(alloc, rpc, volumes),
    }
}

/// Reads a datagram of at most 9,216 bytes, where so many volumes are open (docs/FORMATS.md, "Meaning of a datagram"). Memory can be wanting for a call alone.
pub fn read_datagram(alloc: Global, bytes: &[u8], volumes: u32) -> Result<Datagram, NoMemory>
    requires { length bytes.now ≤ 9216 }
    ensures ok { IfOk result (λ datagram. datagram ≡ meaning bytes.now volumes) }
    // What is sent as a call on an open volume is read as that call.
    ensures sent { (rpc : RpcCall) (volume : ℕ) (call : Call) → Sends rpc volumes volume call → bytes.now ≡ sent_as 2 rpc →
        IfOk result (λ datagram. datagram ≡ Datagram.Asks rpc.xid volume rpc.cred call) }
    ensures err { OnErr result (IsOk (call_of bytes.now)) }
{
    read_exactly(alloc, bytes, volumes)
}
