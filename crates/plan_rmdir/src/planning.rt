// The plan of an RMDIR.

ghost use Rattle.std.specs.Prelude.{ℕ, List, IfOk};
ghost use Rattle.files_model.specs.declared.attributes.FileId.{FileId};
ghost use Rattle.files_model.specs.declared.call.Call.TheVariants.{Rmdir};
ghost use Rattle.files_model.specs.declared.credential.Cred.{Cred};
ghost use Rattle.plan_name.specs.Freeing.{IsDoneReply};
ghost use Rattle.plan_name.specs.Planned.{IsPlannedCall, HasShape};
ghost use Rattle.plan_rmdir.specs.Leaving.{IsLeaving, LeavingWithin};
ghost use Rattle.v7_map.specs.Frame.{frame};
ghost use Rattle.v7_map.specs.Weak.{IsStrong};
ghost use Rattle.v7_sets.specs.Sets.{AreSetsOf};
ghost use Rattle.v7_sets.specs.declared.sets.Sets.{Sets};

use crate::judging::{Judged, judge_rmdir};
use crate::puts::{Leaving, add_leaving};
use files_model::{Cred, FileId, Name, Reply, Stat};
use plan_file::PlanFault;
use plan_name::{Freed, Planned, freed_blocks, freed_number, refused};
use stable::{Plan, Stable};
use std::alloc::Global;
use v7_layout::Inode;
use v7_read::find;

// Plans the RMDIR of this directory, with this inode.
fn put_leaving<S: Stable>(
    alloc: Global,
    store: &mut S,
    leaving: &Leaving,
    inode: &Inode,
    now: u32,
) -> Result<Planned, PlanFault>
    requires within { LeavingWithin (S.sector_count store.old) leaving.now }
    ensures planned { S.tells → IsStrong (frame (S.image store.old)) → (dir : FileId) (name : List ℕ) (cred : Cred) → IsLeaving (S.image store.old) dir name cred leaving.now inode.now → (sets : Sets) → AreSetsOf (S.image store.old) sets.blocks sets.inodes → IfOk result (λ r. IsPlannedCall (S.image store.old) (Rmdir dir name, cred) now sets r) }
    ensures shape { HasShape S.Stable store.old store.new 3 IsDoneReply result }
{
    let mut plan = Plan::new(alloc, 3)?;
    add_leaving(store, &mut plan, leaving, now)?;
    let blocks = freed_blocks(store, inode, true)?;
    let freed = Freed {
        blocks,
        inode: freed_number(leaving.directory, true, inode.generation),
    };
    Ok(Planned {
        plan,
        reply: Reply::Done,
        freed,
    })
}

/// Plans an RMDIR (RFC 1094 2.2.16): the slot's sector, then the inodes of the parent, which has a link less, and of the directory, which ends, in
/// rising number, one put where they stand in one sector. Nothing is put. All memory that the plan needs is taken here, room for three puts. What is
/// freed may go back to the sets once the whole plan is put, and not before.
pub fn plan_rmdir<S: Stable>(
    alloc: Global,
    store: &mut S,
    dir: FileId,
    name: &Name,
    cred: &Cred,
    now: u32,
) -> Result<Planned, PlanFault>
    ensures planned { S.tells → IsStrong (frame (S.image store.old)) → (sets : Sets) → AreSetsOf (S.image store.old) sets.blocks sets.inodes → IfOk result (λ r. IsPlannedCall (S.image store.old) (Rmdir dir name.now, cred.now) now sets r) }
    ensures shape { HasShape S.Stable store.old store.new 3 IsDoneReply result }
{
    let found = find(store, dir)?;
    let Some(found) = found else {
        return Ok(refused(alloc, Stat::Stale));
    };
    let judged = judge_rmdir(store, dir, &found, name, cred)?;
    match judged {
        Judged::Refused(status) => Ok(refused(alloc, status)),
        Judged::Leaves(leaving, inode) => put_leaving(alloc, store, &leaving, &inode, now),
    }
}
