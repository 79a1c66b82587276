// The plan of a CREATE.

ghost use Rattle.std.specs.Prelude.{IfOk};
ghost use Rattle.files_model.specs.declared.call.Call.TheVariants.{Create};
ghost use Rattle.plan_name.specs.Created.{IsHandleReply};
ghost use Rattle.plan_name.specs.Planned.{IsPlannedCall, HasShape, TakesOnly};
ghost use Rattle.v7_map.specs.Frame.{frame};
ghost use Rattle.v7_map.specs.Weak.{IsStrong};
ghost use Rattle.v7_sets.specs.Sets.{AreSetsOf};

use crate::judging_creation::{Creation, judge_creation};
use crate::new_at_end::plan_new_at_end;
use crate::new_in_place::plan_new_in_place;
use crate::planned::{Planned, refused};
use crate::standing::plan_standing_name;
use files_model::{Cred, FileId, Name, Sattr, Stat};
use plan_file::PlanFault;
use stable::Stable;
use std::alloc::Global;
use v7_read::find;
use v7_sets::Sets;

/// Plans a CREATE (RFC 1094 2.2.10): STALE, the refusals of its directory and name, then by what the name has. A file that is there gets a set size. A
/// new one takes the lowest i-number that is free, and its entry the first empty slot, or one at the directory's end. Nothing is put. All memory that the
/// plan needs is taken here. What a new file takes leaves the sets of what is free; after a fault they are as they were. The blocks that are freed may go
/// back to them once the whole plan is put, and not before. No i-number is freed.
pub fn plan_create<S: Stable>(
    alloc: Global,
    store: &mut S,
    sets: &mut Sets,
    dir: FileId,
    name: &Name,
    wanted: &Sattr,
    cred: &Cred,
    now: u32,
) -> Result<Planned, PlanFault>
    ensures planned { S.tells → IsStrong (frame (S.image store.old)) → AreSetsOf (S.image store.old) sets.old.blocks sets.old.inodes → IfOk result (λ r. IsPlannedCall (S.image store.old) (Create dir name.now wanted.now, cred.now) now sets.new r) }
    ensures shape { HasShape S.Stable store.old store.new 4 IsHandleReply result }
    ensures takes { TakesOnly sets.old sets.new result }
{
    let found = find(store, dir)?;
    let Some(found) = found else {
        return Ok(refused(alloc, Stat::Stale));
    };
    let judged = judge_creation(store, dir, &found, name, wanted)?;
    match judged {
        Creation::Refused(status) => Ok(refused(alloc, status)),
        Creation::Stands(ino) => plan_standing_name(alloc, store, ino, wanted, cred, now),
        Creation::InPlace(spot, attr) => {
            plan_new_in_place(alloc, store, sets, &attr, &spot, name, wanted, cred, now)
        }
        Creation::AtEnd(inode) => {
            plan_new_at_end(alloc, store, sets, dir, &inode, name, wanted, cred, now)
        }
    }
}
