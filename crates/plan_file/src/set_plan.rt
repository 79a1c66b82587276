// The plan of a SETATTR.

ghost use Rattle.std.specs.Prelude.{◌≡◌, ◌≢◌, ◌<◌, ◌+◌, ℕ, [], length, ◌++◌, not, ◌==◌, nat_lt, IfOk, OnOk, IsErrOf};
ghost use Rattle.files_model.specs.Batch.{one_if};
ghost use Rattle.files_model.specs.declared.reply.Reply.TheVariants as reply;
ghost use Rattle.stable.specs.Counts.{HasCause, Rose};
ghost use Rattle.stable.specs.Looked.{Looked};
ghost use Rattle.v7_read.specs.Found.{IsFile};
ghost use Rattle.v7_map.specs.Frame.{frame};
ghost use Rattle.v7_map.specs.Image.{inode_sector};
ghost use Rattle.v7_map.specs.Weak.{IsStrong};
ghost use Rattle.plan_file.specs.Contents.{Fits};
ghost use Rattle.plan_file.specs.Planned.{IsWriteReply};
ghost use Rattle.plan_file.specs.Set.{held_put, zero_puts, set_puts, AreKeptPuts, AreShorterPuts, AreSetPuts, IsPlannedSet, CanBeSet};
ghost use Rattle.plan_file.specs.declared.fault.PlanFault.TheVariants as fault;

use crate::PlanFault;
use crate::attributes::{set_attributes, set_refusal_of};
use crate::inode::{direct_places, sector_with, stored_inode};
use crate::places::file_places;
use crate::shorter::{add_left, cut_places, dropped};
use arrayvec::ArrayVec;
use files_model::{Attr, Cred, FileId, Reply, Sattr, Stat};
use stable::{Failed, Plan, Stable};
use std::alloc::Global;
use v7_layout::Inode;
use v7_map::{attributes_of, sectors_of};
use v7_read::{BodySector, Found, body_sector, find, inode_sector_of};

/// What a SETATTR comes to: a plan, which is empty where it is refused, its reply, and the blocks that are free once the whole plan is put.
#[derive(Drop)]
pub struct PlannedSet {
    pub plan: Plan,
    pub reply: Reply,
    pub freed: ArrayVec<u32, 139>,
}

// Adds a sector of a body where it stands, if it is held.
fn add_held(plan: &mut Plan, sector: &BodySector)
    requires { length plan.old.puts < plan.old.room }
    ensures added { plan.new.puts ≡ plan.old.puts ++ held_put sector.now.address sector.now.bytes }
    ensures fits { (sectors : ℕ) → (sector.now.address ≢ 0 → sector.now.address < sectors) → Fits sectors 1 plan.old plan.new }
{
    if sector.address < 2 {
        return;
    }
    plan.add(sector.address, &sector.bytes);
}

// Adds the last sector with zeros past the size, where the size cuts it, it is held, and the new size is above.
fn add_zeros<S: Stable>(
    store: &mut S,
    plan: &mut Plan,
    inode: &Inode,
    new_size: u32,
) -> Result<(), Failed>
    requires { length plan.old.puts < plan.old.room }
    ensures added { S.tells → OnOk result (plan.new.puts ≡ plan.old.puts ++ zero_puts (S.image store.old) inode.now new_size) }
    ensures fits { OnOk result (Fits (S.sector_count store.old) (one_if (nat_lt inode.now.size new_size)) plan.old plan.new) }
    ensures cause { HasCause (S.faults store.old) (S.faults store.new) result }
    ensures looked { Looked S.Stable store.old store.new }
{
    if new_size <= inode.size {
        return Ok(());
    }
    if inode.size % 512 == 0 {
        return Ok(());
    }
    let sector = body_sector(store, inode, inode.size / 512)?;
    add_held(plan, &sector);
    Ok(())
}

// Adds the puts of a file that doesn't get shorter: it keeps its blocks.
fn add_kept<S: Stable>(
    store: &mut S,
    plan: &mut Plan,
    ino: u32,
    found: &Found,
    attr: &Attr,
) -> Result<(), Failed>
    requires empty { plan.old ≡ record { puts = []; room = 2 } }
    requires mode { attr.now.mode < 4096 }
    requires place { inode_sector ino < S.sector_count store.old }
    ensures added { S.tells → OnOk result (AreKeptPuts (S.image store.old) ino found.now attr.now plan.new.puts) }
    ensures fits { OnOk result (Fits (S.sector_count store.old) (one_if (nat_lt found.now.inode.size attr.now.size) + 1) plan.old plan.new) }
    ensures cause { HasCause (S.faults store.old) (S.faults store.new) result }
    ensures looked { Looked S.Stable store.old store.new }
{
    add_zeros(store, plan, &found.inode, attr.size)?;
    let inode = stored_inode(&found.inode, attr, &found.inode.direct, found.inode.single);
    let sector = sector_with(found, ino, &inode);
    plan.add(inode_sector_of(ino), &sector);
    Ok(())
}

// Adds the puts of a file that gets shorter, and lists the blocks that it drops.
fn add_shorter<S: Stable>(
    store: &mut S,
    plan: &mut Plan,
    ino: u32,
    found: &Found,
    attr: &Attr,
) -> Result<ArrayVec<u32, 139>, Failed>
    requires empty { plan.old ≡ record { puts = []; room = 2 } }
    requires mode { attr.now.mode < 4096 }
    requires place { inode_sector ino < S.sector_count store.old }
    ensures added { S.tells → IfOk result (λ freed. AreShorterPuts (S.image store.old) ino found.now attr.now plan.new.puts freed.items) }
    ensures fits { OnOk result (Fits (S.sector_count store.old) 2 plan.old plan.new) }
    ensures cause { HasCause (S.faults store.old) (S.faults store.new) result }
    ensures looked { Looked S.Stable store.old store.new }
{
    let places = file_places(store, &found.inode)?;
    let kept = cut_places(&places, sectors_of(attr.size));
    let direct = direct_places(&kept);
    let inode = stored_inode(&found.inode, attr, &direct, kept.single);
    let sector = sector_with(found, ino, &inode);
    plan.add(inode_sector_of(ino), &sector);
    add_left(plan, &places, &kept);
    Ok(dropped(&places, &kept))
}

// Plans a SETATTR that makes these attributes of a file.
fn put_set<S: Stable>(
    alloc: Global,
    store: &mut S,
    ino: u32,
    found: &Found,
    attr: &Attr,
) -> Result<PlannedSet, PlanFault>
    requires mode { attr.now.mode < 4096 }
    requires place { inode_sector ino < S.sector_count store.old }
    ensures done { S.tells → IfOk result (λ r. AreSetPuts (S.image store.old) ino found.now attr.now r.plan.puts r.freed.items) }
    ensures reply { IfOk result (λ r. r.reply ≡ reply.Attr attr.now) }
    ensures fits { IfOk result (λ r. CanBeSet (S.sector_count store.old) (one_if (not (found.now.inode.size == attr.now.size)) + 1) r.plan) }
    ensures cause { IsErrOf result fault.Failed → Rose (S.faults store.old) (S.faults store.new) }
    ensures looked { Looked S.Stable store.old store.new }
{
    let mut plan = Plan::new(alloc, 2)?;
    let reply = Reply::Attr(*attr);
    if attr.size < found.inode.size {
        let freed = add_shorter(store, &mut plan, ino, found, attr)?;
        return Ok(PlannedSet { plan, reply, freed });
    }
    add_kept(store, &mut plan, ino, found, attr)?;
    let freed = ArrayVec::new();
    Ok(PlannedSet { plan, reply, freed })
}

// Nothing is planned, and this is the answer.
fn refused(alloc: Global, status: Stat) -> PlannedSet
    ensures plan { result.plan ≡ record { puts = []; room = 0 } }
    ensures reply { result.reply ≡ reply.Refused status }
    ensures freed { result.freed.items ≡ [] }
{
    PlannedSet {
        plan: Plan::empty(alloc),
        reply: Reply::Refused(status),
        freed: ArrayVec::new(),
    }
}

// Plans a SETATTR of a file that stands.
fn set_found<S: Stable>(
    alloc: Global,
    store: &mut S,
    file: FileId,
    found: &Found,
    wanted: &Sattr,
    cred: &Cred,
    now: u32,
) -> Result<PlannedSet, PlanFault>
    requires place { inode_sector file.ino < S.sector_count store.old }
    ensures planned { S.tells → IsStrong (frame (S.image store.old)) → IsFile (S.image store.old) file found.now → IfOk result (λ r. IsPlannedSet (S.image store.old) file wanted.now cred.now now r.plan.puts r.reply r.freed.items) }
    ensures fits { IfOk result (λ r. CanBeSet (S.sector_count store.old) (set_puts wanted.now) r.plan) }
    ensures form { IfOk result (λ r. IsWriteReply r.reply) }
    ensures cause { IsErrOf result fault.Failed → Rose (S.faults store.old) (S.faults store.new) }
    ensures looked { Looked S.Stable store.old store.new }
{
    let attr = attributes_of(file.ino, &found.inode);
    match set_refusal_of(found.read_only, &attr, wanted, cred) {
        Some(status) => return Ok(refused(alloc, status)),
        None => {}
    }
    let after = set_attributes(&attr, wanted, now);
    let planned = put_set(alloc, store, file.ino, found, &after)?;
    Ok(planned)
}

/// Plans a SETATTR (RFC 1094 2.2.3): where the size grows over a last sector that is held and partial, that sector with zeros past the old size; the
/// inode; where the size shrinks, the block of addresses if it keeps one and changes. A size that grows adds no sector. Nothing is put. All memory that
/// the plan needs is taken here, room for two puts. The blocks that are freed may go back to the sets once the whole plan is put, and not before.
pub fn plan_setattr<S: Stable>(
    alloc: Global,
    store: &mut S,
    file: FileId,
    wanted: &Sattr,
    cred: &Cred,
    now: u32,
) -> Result<PlannedSet, PlanFault>
    ensures planned { S.tells → IsStrong (frame (S.image store.old)) → IfOk result (λ r. IsPlannedSet (S.image store.old) file wanted.now cred.now now r.plan.puts r.reply r.freed.items) }
    ensures fits { IfOk result (λ r. CanBeSet (S.sector_count store.old) (set_puts wanted.now) r.plan) }
    ensures form { IfOk result (λ r. IsWriteReply r.reply) }
    ensures cause { IsErrOf result fault.Failed → Rose (S.faults store.old) (S.faults store.new) }
    ensures looked { Looked S.Stable store.old store.new }
{
    let found = find(store, file)?;
    match found {
        Some(found) => set_found(alloc, store, file, &found, wanted, cred, now),
        None => Ok(refused(alloc, Stat::Stale)),
    }
}
