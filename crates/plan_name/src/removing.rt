// The plan of a REMOVE.

ghost use Rattle.std.specs.Prelude.{◌≡◌, ℕ, List, nat_lt, ◌&&◌, Some, None, if◌then◌else◌, IfOk};
ghost use Rattle.files_model.specs.declared.attributes.FileId.{FileId};
ghost use Rattle.files_model.specs.declared.credential.Cred.{Cred};
ghost use Rattle.files_model.specs.declared.call.Call.TheVariants.{Remove};
ghost use Rattle.plan_name.specs.Planned.{IsPlannedCall, HasShape};
ghost use Rattle.plan_name.specs.Freeing.{AreBlocksOf, Frees, IsDoneReply};
ghost use Rattle.plan_name.specs.Removals.{IsTaken, TakenWithin};
ghost use Rattle.stable.specs.Counts.{HasCause};
ghost use Rattle.stable.specs.Looked.{Looked};
ghost use Rattle.v7_map.specs.Frame.{frame};
ghost use Rattle.v7_map.specs.Weak.{IsStrong};
ghost use Rattle.v7_sets.specs.Sets.{AreSetsOf};
ghost use Rattle.v7_sets.specs.declared.sets.Sets.{Sets};

use crate::judging_removal::{Judged, judge_removal};
use crate::planned::{Freed, Planned, refused};
use crate::removing_puts::{Taking, add_removal};
use arrayvec::ArrayVec;
use files_model::{Cred, FileId, Name, Reply, Stat};
use plan_file::PlanFault;
use stable::{Failed, Plan, Stable};
use std::alloc::Global;
use v7_layout::Inode;
use v7_read::{find, read_places};

// The blocks at the places of an inode, but for the double indirect one, which no volume has.
fn blocks_of(places: &[u32; 140]) -> ArrayVec<u32, 139>
    ensures { AreBlocksOf places.now 139 result.items }
{
    let mut blocks = ArrayVec::new();
    for index in 0..139 {
        if places[index] == 0 {
            continue;
        }
        blocks.push(places[index]);
    }
    blocks
}

/// The blocks that are free once a node lost a name: all of its own where that was the last, and else none. Reads at most one sector.
pub fn freed_blocks<S: Stable>(
    store: &mut S,
    inode: &Inode,
    last: bool,
) -> Result<ArrayVec<u32, 139>, Failed>
    ensures freed { S.tells → IfOk result (λ freed. Frees (S.image store.old) inode.now last freed.items) }
    ensures cause { HasCause (S.faults store.old) (S.faults store.new) result }
    ensures looked { Looked S.Stable store.old store.new }
{
    if !last {
        return Ok(ArrayVec::new());
    }
    let places = read_places(store, inode)?;
    Ok(blocks_of(&places))
}

/// The i-number that new files may have again once a node lost a name: its own where that was the last, unless its generation can't go up.
pub fn freed_number(node: u32, last: bool, generation: u32) -> Option<u32>
    ensures { result ≡ (if last && nat_lt generation 4294967295 then Some node else None) }
{
    if last && generation < u32::MAX {
        Some(node)
    } else {
        None
    }
}

// Plans the REMOVE of this name, of a node with this inode.
fn put_removal<S: Stable>(
    alloc: Global,
    store: &mut S,
    taking: &Taking,
    inode: &Inode,
    now: u32,
) -> Result<Planned, PlanFault>
    requires within { TakenWithin (S.sector_count store.old) taking.now }
    ensures planned { S.tells → IsStrong (frame (S.image store.old)) → (dir : FileId) (name : List ℕ) (cred : Cred) → IsTaken (S.image store.old) dir name cred taking.now inode.now → (sets : Sets) → AreSetsOf (S.image store.old) sets.blocks sets.inodes → IfOk result (λ r. IsPlannedCall (S.image store.old) (Remove dir name, cred) now sets r) }
    ensures shape { HasShape S.Stable store.old store.new 3 IsDoneReply result }
{
    let mut plan = Plan::new(alloc, 3)?;
    add_removal(store, &mut plan, taking, now)?;
    let blocks = freed_blocks(store, inode, taking.last)?;
    let freed = Freed {
        blocks,
        inode: freed_number(taking.node, taking.last, inode.generation),
    };
    Ok(Planned {
        plan,
        reply: Reply::Done,
        freed,
    })
}

/// Plans a REMOVE (RFC 1094 2.2.11): the slot's sector, then the inodes of the directory and of the node in rising number, one put where they stand in
/// one sector. The node ends with its last name. Nothing is put. All memory that the plan needs is taken here, room for three puts. What is freed may go
/// back to the sets once the whole plan is put, and not before.
pub fn plan_remove<S: Stable>(
    alloc: Global,
    store: &mut S,
    dir: FileId,
    name: &Name,
    cred: &Cred,
    now: u32,
) -> Result<Planned, PlanFault>
    ensures planned { S.tells → IsStrong (frame (S.image store.old)) → (sets : Sets) → AreSetsOf (S.image store.old) sets.blocks sets.inodes → IfOk result (λ r. IsPlannedCall (S.image store.old) (Remove dir name.now, cred.now) now sets r) }
    ensures shape { HasShape S.Stable store.old store.new 3 IsDoneReply result }
{
    let found = find(store, dir)?;
    let Some(found) = found else {
        return Ok(refused(alloc, Stat::Stale));
    };
    let judged = judge_removal(store, dir, &found, name, cred)?;
    match judged {
        Judged::Refused(status) => Ok(refused(alloc, status)),
        Judged::Takes(taking, inode) => put_removal(alloc, store, &taking, &inode, now),
    }
}
