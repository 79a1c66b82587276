//! The arguments of all procedures (RFC 1094 2.2).
ghost use Rattle.std.specs.Prelude.{◌≡◌, ℕ, List, IfOk, OnErr};
ghost use Rattle.files_model.specs.declared.call.Call.{Call};
ghost use Rattle.nfs2_wire.specs.AllSending.{arguments_of, procedure_of, CanBeCalled};
ghost use Rattle.nfs2_wire.specs.declared.all_calls.NfsCall.{NfsCall};
ghost use Rattle.nfs2_wire.specs.AllCalls.{write_call, symlink_call, read_of, nfs_call, TakesMemory};

use crate::arguments::write_args_of;
use crate::on_volume::{
    OfFile, OfName, OfNew, Unread, VolumeCall, opened_by, read_link, read_of_file, read_of_name,
    read_of_new, read_read, read_readdir, read_rename, read_setattr,
};
use crate::shapes::symlink_args_of;
use files_model::{Call, Data, Name, NoMemory, Text};
use std::alloc::Global;
use xdr_rpc::RpcCall;

/// What the arguments of a call mean: a call on an open volume; a handle that names no file of one; an answer without a result; or nothing that can be read.
#[derive(Drop)]
pub enum NfsCall {
    Call { volume: u32, call: Call },
    Stale,
    Void,
    Garbage,
}

fn read_as(read: Result<VolumeCall, Unread>) -> NfsCall
    ensures { result ≡ read_of read }
{
    match read {
        Ok(asked) => NfsCall::Call {
            volume: asked.volume,
            call: asked.call,
        },
        Err(Unread::Stale) => NfsCall::Stale,
        Err(Unread::Garbage) => NfsCall::Garbage,
    }
}

#[tactic(auto, unfolding(crate::specs::AllCalls::write_call))]
fn read_write(alloc: Global, bytes: &[u8], volumes: u32) -> Result<NfsCall, NoMemory>
    ensures ok { IfOk result (λ read. read ≡ read_of (write_call volumes bytes.now)) }
    ensures err { OnErr result (TakesMemory (read_of (write_call volumes bytes.now))) }
{
    let Some(a) = write_args_of(bytes) else {
        return Ok(NfsCall::Garbage);
    };
    let Ok(h) = opened_by(a.handle, volumes) else {
        return Ok(NfsCall::Stale);
    };
    let call = Call::Write {
        file: h.file,
        offset: a.offset,
        bytes: Data::copy(alloc, a.bytes)?,
    };
    Ok(NfsCall::Call {
        volume: h.volume,
        call,
    })
}

#[tactic(auto, unfolding(crate::specs::AllCalls::symlink_call))]
fn read_symlink(alloc: Global, bytes: &[u8], volumes: u32) -> Result<NfsCall, NoMemory>
    ensures ok { IfOk result (λ read. read ≡ read_of (symlink_call volumes bytes.now)) }
    ensures err { OnErr result (TakesMemory (read_of (symlink_call volumes bytes.now))) }
{
    let Some(a) = symlink_args_of(bytes) else {
        return Ok(NfsCall::Garbage);
    };
    let Ok(h) = opened_by(a.at.dir, volumes) else {
        return Ok(NfsCall::Stale);
    };
    let text = Text::copy(alloc, a.text)?;
    let call = Call::Symlink {
        dir: h.file,
        name: Name::copy(a.at.name),
        text,
        set: a.set,
    };
    Ok(NfsCall::Call {
        volume: h.volume,
        call,
    })
}

#[tactic(auto, unfolding(crate::specs::AllCalls::nfs_call))]
fn read_by_number(
    alloc: Global,
    procedure: u32,
    args: &[u8],
    volumes: u32,
) -> Result<NfsCall, NoMemory>
    ensures ok { IfOk result (λ read. read ≡ nfs_call procedure args.now volumes) }
    ensures err { OnErr result (TakesMemory (nfs_call procedure args.now volumes)) }
{
    match procedure {
        1 => Ok(read_as(read_of_file(OfFile::Getattr, args, volumes))),
        2 => Ok(read_as(read_setattr(args, volumes))),
        4 => Ok(read_as(read_of_name(OfName::Lookup, args, volumes))),
        5 => Ok(read_as(read_of_file(OfFile::Readlink, args, volumes))),
        6 => Ok(read_as(read_read(args, volumes))),
        8 => read_write(alloc, args, volumes),
        9 => Ok(read_as(read_of_new(OfNew::Create, args, volumes))),
        10 => Ok(read_as(read_of_name(OfName::Remove, args, volumes))),
        11 => Ok(read_as(read_rename(args, volumes))),
        12 => Ok(read_as(read_link(args, volumes))),
        13 => read_symlink(alloc, args, volumes),
        14 => Ok(read_as(read_of_new(OfNew::Mkdir, args, volumes))),
        15 => Ok(read_as(read_of_name(OfName::Rmdir, args, volumes))),
        16 => Ok(read_as(read_readdir(args, volumes))),
        17 => Ok(read_as(read_of_file(OfFile::Statfs, args, volumes))),
        _ => Ok(NfsCall::Void),
    }
}

/// Reads the arguments of a call of any procedure, where so many volumes are open (RFC 1094 2.2). Memory can be wanting for a WRITE or a SYMLINK on one of them alone.
pub fn read_arguments(alloc: Global, call: &RpcCall, volumes: u32) -> Result<NfsCall, NoMemory>
    ensures ok { IfOk result (λ read. read ≡ nfs_call call.now.procedure call.now.args volumes) }
    // What is sent as a call on an open volume is read as that call, whatever follows it.
    ensures sent { (volume : ℕ) (asked : Call) (rest : List ℕ) → CanBeCalled volumes volume asked → call.now.procedure ≡ procedure_of asked → call.now.args ≡ arguments_of volume asked rest →
        IfOk result (λ read. read ≡ NfsCall.Call volume asked) }
    ensures err { OnErr result (TakesMemory (nfs_call call.now.procedure call.now.args volumes)) }
{
    read_by_number(alloc, call.procedure, call.args.bytes(), volumes)
}
