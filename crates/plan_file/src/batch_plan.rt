// The plan of a batch of writes to one file.

ghost use Rattle.std.specs.Prelude.{◌≡◌, ◌<◌, ◌≤◌, [], length, replicate, not, IfOk, OnOk, OnErr, IsErrOf};
ghost use Rattle.std.specs.List.{list_any};
ghost use Rattle.files_model.specs.Space.{size_limit};
ghost use Rattle.files_model.specs.Step.{is_refused};
ghost use Rattle.files_model.specs.declared.reply.Reply.TheVariants.{Refused};
ghost use Rattle.files_model.specs.declared.reply.Stat.TheVariants.{Stale};
ghost use Rattle.stable.specs.Counts.{HasCause, Rose};
ghost use Rattle.stable.specs.Looked.{Looked};
ghost use Rattle.v7_read.specs.Found.{IsFile};
ghost use Rattle.v7_map.specs.Frame.{frame};
ghost use Rattle.v7_map.specs.Image.{inode_sector};
ghost use Rattle.v7_map.specs.Weak.{IsStrong};
ghost use Rattle.v7_sets.specs.Sets.{AreSetsOf};
ghost use Rattle.plan_file.specs.Accepted.{kept_of};
ghost use Rattle.plan_file.specs.Free.{TakesBlocks};
ghost use Rattle.plan_file.specs.Contents.{Fits};
ghost use Rattle.plan_file.specs.Planned.{AreBatchPuts, IsReady, IsPlanned, HasAnswers, room_for};
ghost use Rattle.plan_file.specs.declared.fault.PlanFault.TheVariants as fault;

use crate::PlanFault;
use crate::accepted::count_touched;
use crate::decide::decide;
use crate::filling::{add_contents, add_cut, add_map};
use crate::inode::sector_of_inode;
use crate::layout::{lay_out, spare_blocks, take_new};
use crate::places::{Places, file_places};
use crate::started::first_draft;
use arrayvec::ArrayVec;
use files_model::{Attr, FileId, Reply, Stat, WriteItem};
use stable::{Failed, Plan, Stable};
use std::alloc::Global;
use v7_read::{Found, find, inode_sector_of};
use v7_sets::Sets;

/// What a batch comes to: a plan, which is empty where all its writes are refused, and the replies in the order of the writes.
#[derive(Drop)]
pub struct Planned {
    pub plan: Plan,
    pub replies: ArrayVec<Reply, 16>,
}

// As many answers of a stale handle as there are writes.
fn stale_replies(batch: &[WriteItem]) -> ArrayVec<Reply, 16>
    requires { length batch.now ≤ 16 }
    ensures { result.items ≡ replicate (length batch.now) (Refused Stale) }
{
    let mut replies = ArrayVec::new();
    for _ in 0..batch.len() {
        replies.push(Reply::Refused(Stat::Stale));
    }
    replies
}

// Whether an answer is no refusal.
fn any_accepted(replies: &[Reply]) -> bool
    ensures { result ≡ list_any (λ r. not (is_refused r)) replies.now }
{
    for reply in replies {
        if !matches!(reply, Reply::Refused(_)) {
            return true;
        }
    }
    false
}

// Adds the puts of a batch of which some writes are accepted.
fn add_puts<S: Stable>(
    store: &mut S,
    plan: &mut Plan,
    ino: u32,
    found: &Found,
    places: &Places,
    target: &Places,
    attr: &Attr,
    batch: &[WriteItem],
    replies: &[Reply],
) -> Result<(), Failed>
    requires ready { IsReady (S.sector_count store.old) ino places.now target.now attr.now (kept_of batch.now replies.now) }
    requires empty { plan.old ≡ record { puts = []; room = room_for (kept_of batch.now replies.now) } }
    requires same { length replies.now ≡ length batch.now }
    ensures added { S.tells → OnOk result (AreBatchPuts (S.image store.old) ino found.now places.now target.now attr.now (kept_of batch.now replies.now) plan.new.puts) }
    ensures fits { OnOk result (Fits (S.sector_count store.old) (room_for (kept_of batch.now replies.now)) plan.old plan.new) }
    ensures cause { HasCause (S.faults store.old) (S.faults store.new) result }
    ensures looked { Looked S.Stable store.old store.new }
{
    let size = found.inode.size;
    add_cut(store, plan, places, size, attr.size, batch, replies)?;
    add_contents(store, plan, places, target, size, batch, replies)?;
    add_map(plan, places, target);
    let sector = sector_of_inode(found, ino, attr, target);
    plan.add(inode_sector_of(ino), &sector);
    Ok(())
}

// Plans a batch of writes to a file that stands.
fn plan_found<S: Stable>(
    alloc: Global,
    store: &mut S,
    sets: &mut Sets,
    file: FileId,
    found: &Found,
    batch: &[WriteItem],
    now: u32,
) -> Result<Planned, PlanFault>
    requires few { length batch.now ≤ 16 }
    requires found { (found.now.inode.size ≤ size_limit) × (inode_sector file.ino < S.sector_count store.old) }
    ensures planned { S.tells → IsStrong (frame (S.image store.old)) → AreSetsOf (S.image store.old) sets.old.blocks sets.old.inodes → IsFile (S.image store.old) file found.now → IfOk result (λ r. IsPlanned (S.image store.old) file batch.now now sets.new r.plan.puts r.replies.items) }
    ensures fits { IfOk result (λ r. HasAnswers (S.sector_count store.old) batch.now r.plan r.replies.items) }
    ensures takes { TakesBlocks sets.old sets.new }
    ensures kept { OnErr result (sets.new ≡ sets.old) }
    ensures cause { IsErrOf result fault.Failed → Rose (S.faults store.old) (S.faults store.new) }
    ensures looked { Looked S.Stable store.old store.new }
{
    let places = file_places(store, &found.inode)?;
    let free = spare_blocks(&sets.blocks, store.sectors());
    let mut draft = first_draft(file.ino, &found.inode, &places, free);
    let replies = decide(found.read_only, &mut draft, batch, now);
    if !any_accepted(replies.as_slice()) {
        let plan = Plan::empty(alloc);
        return Ok(Planned { plan, replies });
    }
    let room = count_touched(batch, replies.as_slice()) + 3;
    let mut plan = Plan::new(alloc, room)?;
    let target = lay_out(&sets.blocks, &places, &draft.held, draft.mapped);
    add_puts(
        store,
        &mut plan,
        file.ino,
        found,
        &places,
        &target,
        &draft.attr,
        batch,
        replies.as_slice(),
    )?;
    take_new(
        &mut sets.blocks,
        &places,
        &draft.held,
        draft.mapped,
        &target,
    );
    Ok(Planned { plan, replies })
}

/// Plans a batch of at most 16 writes to one file at one time, each answered as if those before it were done (RFC 1094 2.2.9): the old last sector
/// where the size cuts it, the file grows and it isn't written, then each touched sector once with its final content, then the block of addresses if
/// it changes, then the inode. Nothing is put. All memory that the plan needs is taken here, once its accepted writes are known: room for so many
/// puts as these can need. The new blocks leave the set of free ones; after a fault the sets are as they were.
pub fn plan_writes<S: Stable>(
    alloc: Global,
    store: &mut S,
    sets: &mut Sets,
    file: FileId,
    batch: &[WriteItem],
    now: u32,
) -> Result<Planned, PlanFault>
    requires few { length batch.now ≤ 16 }
    ensures planned { S.tells → IsStrong (frame (S.image store.old)) → AreSetsOf (S.image store.old) sets.old.blocks sets.old.inodes → IfOk result (λ r. IsPlanned (S.image store.old) file batch.now now sets.new r.plan.puts r.replies.items) }
    ensures fits { IfOk result (λ r. HasAnswers (S.sector_count store.old) batch.now r.plan r.replies.items) }
    ensures takes { TakesBlocks sets.old sets.new }
    ensures kept { OnErr result (sets.new ≡ sets.old) }
    ensures cause { IsErrOf result fault.Failed → Rose (S.faults store.old) (S.faults store.new) }
    ensures looked { Looked S.Stable store.old store.new }
{
    let found = find(store, file)?;
    match found {
        Some(found) => plan_found(alloc, store, sets, file, &found, batch, now),
        None => Ok(Planned {
            plan: Plan::empty(alloc),
            replies: stale_replies(batch),
        }),
    }
}
