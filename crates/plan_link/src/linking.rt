// The plan of a LINK.

ghost use Rattle.std.specs.Prelude.{IfOk};
ghost use Rattle.files_model.specs.declared.call.Call.TheVariants.{Link};
ghost use Rattle.plan_name.specs.Freeing.{IsDoneReply};
ghost use Rattle.plan_name.specs.Planned.{IsPlannedCall, HasShape, TakesOnly};
ghost use Rattle.v7_map.specs.Frame.{frame};
ghost use Rattle.v7_map.specs.Weak.{IsStrong};
ghost use Rattle.v7_sets.specs.Sets.{AreSetsOf};

use crate::judging::{Judged, find_ends, judge_link};
use crate::placing::{plan_at_end, plan_in_place};
use files_model::{Cred, FileId, Name, Stat};
use plan_file::PlanFault;
use plan_name::{Planned, refused};
use stable::Stable;
use std::alloc::Global;
use v7_sets::Sets;

/// Plans a LINK (RFC 1094 2.2.13), which gives a file one name more: STALE of either handle, ROFS, ISDIR for a directory, NOTDIR, the refusals of its
/// name, EXIST, ACCES, FBIG of the directory, NOSPC where the file has 32,767 links or too few blocks are free. The entry takes the first empty slot, or
/// one at the directory's end. The plan is the file's inode, the slot's sector, the block of addresses if it changes, and the directory's inode: at most
/// four puts. Nothing is put. All memory that the plan needs is taken here. What the directory takes leaves the sets of what is free; after a fault they
/// are as they were. Nothing is freed.
pub fn plan_link<S: Stable>(
    alloc: Global,
    store: &mut S,
    sets: &mut Sets,
    file: FileId,
    dir: FileId,
    name: &Name,
    cred: &Cred,
    now: u32,
) -> Result<Planned, PlanFault>
    ensures planned { S.tells → IsStrong (frame (S.image store.old)) → AreSetsOf (S.image store.old) sets.old.blocks sets.old.inodes → IfOk result (λ r. IsPlannedCall (S.image store.old) (Link file dir name.now, cred.now) now sets.new r) }
    ensures shape { HasShape S.Stable store.old store.new 4 IsDoneReply result }
    ensures takes { TakesOnly sets.old sets.new result }
{
    let Some(ends) = find_ends(store, file, dir)? else {
        return Ok(refused(alloc, Stat::Stale));
    };
    match judge_link(store, file, dir, &ends, name)? {
        Judged::Refused(status) => Ok(refused(alloc, status)),
        Judged::InPlace(spot) => {
            plan_in_place(alloc, store, sets, file, &ends, &spot, name, cred, now)
        }
        Judged::AtEnd => plan_at_end(alloc, store, sets, file, dir, &ends, name, cred, now),
    }
}
