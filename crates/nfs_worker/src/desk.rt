//! What is answered outside the history of a volume, and from what.
ghost use Rattle.std.specs.Prelude.{◌≡◌, ◌≤◌, length, slice_index, IfOk, OnOk, OnErr};
ghost use Rattle.stable.specs.Looked.{KeepsImage};
ghost use Rattle.volume.specs.Mounted.{store_of, SameButStore};
ghost use Rattle.volume.specs.Rests.{Rests};
ghost use Rattle.mount1.specs.Calls.{reply_to};
ghost use Rattle.nfs_worker.specs.Desk.{new_desk, after_call, command_reply, status_reply, IsObeyed, change_of};

use files_model::{FileId, NoMemory};
use lists::Items;
use mount1::Mounts;
use presto_rpc::{write_answer, write_status};
use stable::{Answer, Command, Snapshot, Tended};
use std::alloc::Global;
use volume::Volume;
use xdr_rpc::{ReplyBytes, RpcCall, ShortReply};

/// The list of mounts, the root directory of each volume, which MNT gives, and how often each store had been put when the workers were opened.
#[derive(Drop)]
pub struct Desk {
    pub mounts: Mounts,
    pub roots: Items<FileId>,
    pub first_puts: Items<u64>,
}

impl Desk {
    /// A desk with an empty list, of one to four volumes.
    pub fn new(alloc: Global, roots: Vec<FileId>, first_puts: Vec<u64>) -> Result<Desk, NoMemory>
        requires some { 1 ≤ length roots.items }
        requires few { length roots.items ≤ 4 }
        ensures { IfOk result (λ desk. desk ≡ new_desk roots.items first_puts.items) }
    {
        let mounts = Mounts::new(alloc, roots.len() as u32)?;
        Ok(Desk {
            mounts,
            roots: Items::new(roots),
            first_puts: Items::new(first_puts),
        })
    }
}

/// Answers a call of MOUNT. Where there is no memory the list stays as it was.
pub fn answer_mount(desk: &mut Desk, alloc: Global, rpc: &RpcCall) -> Result<ReplyBytes, NoMemory>
    requires { length desk.old.roots ≡ desk.old.mounts.volumes }
    ensures reply { IfOk result (λ reply. reply ≡ reply_to desk.old.mounts desk.old.roots rpc.now) }
    ensures rows { OnOk result (desk.new ≡ after_call desk.old rpc.now) }
    ensures err { OnErr result (desk.new ≡ desk.old) }
{
    desk.mounts.answer(alloc, rpc, desk.roots.list())
}

fn answer_reply(xid: u32, answer: Answer) -> ShortReply
    ensures { result ≡ command_reply xid answer }
{
    match answer {
        Answer::Done => write_answer(xid, 0, 0),
        Answer::Left(n) => write_answer(xid, 1, n),
        Answer::BatteryLow => write_answer(xid, 2, 0),
        Answer::NotDown => write_answer(xid, 3, 0),
    }
}

/// Obeys a command to the volume's store. The reply says what became of it.
pub fn obey<S: Tended>(volume: &mut Volume<S>, xid: u32, command: Command) -> ShortReply
    requires rest { Rests S.Stable volume.old }
    ensures rest { Rests S.Stable volume.new }
    ensures kept { SameButStore volume.old volume.new }
    ensures keeps { KeepsImage S.Stable (store_of volume.old) (store_of volume.new) }
    ensures obeyed { IsObeyed xid command (change_of S.Stable (store_of volume.old) (store_of volume.new)) result }
{
    let answer = volume.command(command);
    answer_reply(xid, answer)
}

/// The status of the volume's store, with the puts since there were so many.
pub fn status<S: Tended>(volume: &Volume<S>, xid: u32, first_puts: u64) -> ShortReply
    ensures { result ≡ status_reply xid first_puts (S.snapshot_of (store_of volume.now)) }
{
    let shown = volume.snapshot();
    let puts = shown.puts.wrapping_sub(first_puts);
    write_status(xid, &Snapshot { puts, ..shown })
}
