//! The answers of MOUNT.
ghost use Rattle.std.specs.Prelude.{◌≡◌, ◌≤◌, ◌<◌, length, IfOk, IfSome, OnOk, OnErr};
ghost use Rattle.mount1.specs.Paths.{volume_named, below, path_arg};
ghost use Rattle.mount1.specs.Rows.{unmounted_all, with_rows};
ghost use Rattle.mount1.specs.Calls.{after_mount, mnt, umnt, rows_after, mnt_reply, umnt_reply, reply_to};
ghost use Rattle.xdr_rpc.specs.Refusals.{refusal};
ghost use Rattle.xdr_rpc.specs.declared.refusal.Cause.{Cause};

use crate::list::Mounts;
use crate::paths::{path_at, volume_at};
use crate::replies::{copied, dump_reply, export_reply, mount_reply};
use files_model::{FileId, Name, NoMemory};
use std::alloc::Global;
use xdr_rpc::{ReplyBytes, RpcCall, garbage_reply, void_reply};

/// The numbers of procedures (RFC 1094 appendix A.5).
const MNT: u32 = 1;

const DUMP: u32 = 2;

const UMNT: u32 = 3;

const UMNTALL: u32 = 4;

const EXPORT: u32 = 5;

fn open_volume(path: &[u8], volumes: u32) -> Option<u32>
    requires { volumes ≤ 4 }
    ensures volume { result ≡ below volumes (volume_named path.now) }
    ensures bound { IfSome result (λ volume. volume < volumes) }
{
    let volume = volume_at(path)?;
    if volume < volumes { Some(volume) } else { None }
}

impl Mounts {
    fn mount_open(&mut self, machine: &Name, volume: Option<u32>) -> Result<(), NoMemory>
        requires { IfSome volume (λ v. v ≤ 3) }
        ensures ok { OnOk result (self.new ≡ with_rows self.old (after_mount machine.now volume self.old.rows)) }
        ensures err { OnErr result (self.new ≡ self.old) }
    {
        match volume {
            None => Ok(()),
            Some(volume) => self.mount(machine, volume),
        }
    }

    fn answer_mount(
        &mut self,
        alloc: Global,
        call: &RpcCall,
        roots: &[FileId],
    ) -> Result<ReplyBytes, NoMemory>
        requires { length roots.now ≡ self.old.volumes }
        ensures reply { IfOk result (λ reply. reply ≡ mnt_reply self.old roots.now call.now.xid (path_arg call.now.args)) }
        ensures rows { OnOk result (self.new ≡ with_rows self.old (mnt self.old call.now.machine (path_arg call.now.args))) }
        ensures err { OnErr result (self.new ≡ self.old) }
    {
        let Some(path) = path_at(call.args.bytes()) else {
            return copied(alloc, &garbage_reply(call.xid));
        };
        let volume = open_volume(path, self.volumes());
        let reply = mount_reply(alloc, call.xid, roots, volume)?;
        self.mount_open(&call.machine, volume)?;
        Ok(reply)
    }

    fn answer_unmount(&mut self, alloc: Global, call: &RpcCall) -> Result<ReplyBytes, NoMemory>
        ensures reply { IfOk result (λ reply. reply ≡ umnt_reply call.now.xid (path_arg call.now.args)) }
        ensures rows { OnOk result (self.new ≡ with_rows self.old (umnt self.old call.now.machine (path_arg call.now.args))) }
        ensures err { OnErr result (self.new ≡ self.old) }
    {
        let Some(path) = path_at(call.args.bytes()) else {
            return copied(alloc, &garbage_reply(call.xid));
        };
        let reply = copied(alloc, &void_reply(call.xid))?;
        if let Some(volume) = volume_at(path) {
            self.unmount(&call.machine, volume);
        }
        Ok(reply)
    }

    fn answer_unmount_all(&mut self, alloc: Global, call: &RpcCall) -> Result<ReplyBytes, NoMemory>
        ensures reply { IfOk result (λ reply. reply ≡ refusal call.now.xid Cause.Done) }
        ensures rows { OnOk result (self.new ≡ with_rows self.old (unmounted_all call.now.machine self.old.rows)) }
        ensures err { OnErr result (self.new ≡ self.old) }
    {
        let reply = copied(alloc, &void_reply(call.xid))?;
        self.unmount_all(&call.machine);
        Ok(reply)
    }

    /// Answers a call of MOUNT, where these are the roots of the volumes that are open (RFC 1094 appendix A.5; docs/FORMATS.md, "MOUNT"). Where there is no memory for the reply or a row, the list stays as it was.
    pub fn answer(
        &mut self,
        alloc: Global,
        call: &RpcCall,
        roots: &[FileId],
    ) -> Result<ReplyBytes, NoMemory>
        requires { length roots.now ≡ self.old.volumes }
        ensures reply { IfOk result (λ reply. reply ≡ reply_to self.old roots.now call.now) }
        ensures rows { OnOk result (self.new ≡ with_rows self.old (rows_after self.old call.now)) }
        ensures err { OnErr result (self.new ≡ self.old) }
    {
        match call.procedure {
            MNT => self.answer_mount(alloc, call, roots),
            DUMP => dump_reply(alloc, call.xid, self.rows()),
            UMNT => self.answer_unmount(alloc, call),
            UMNTALL => self.answer_unmount_all(alloc, call),
            EXPORT => export_reply(alloc, call.xid, self.volumes()),
            _ => copied(alloc, &void_reply(call.xid)),
        }
    }
}
