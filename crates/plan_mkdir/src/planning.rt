// The plan of a MKDIR.

ghost use Rattle.std.specs.Prelude.{IfOk};
ghost use Rattle.files_model.specs.declared.call.Call.TheVariants.{Mkdir};
ghost use Rattle.plan_name.specs.Created.{IsHandleReply};
ghost use Rattle.plan_name.specs.Planned.{IsPlannedCall, HasShape, TakesOnly};
ghost use Rattle.v7_map.specs.Frame.{frame};
ghost use Rattle.v7_map.specs.Weak.{IsStrong};
ghost use Rattle.v7_sets.specs.Sets.{AreSetsOf};

use crate::at_end::plan_at_end;
use crate::in_place::plan_in_place;
use files_model::{Cred, FileId, Name, Sattr, Stat};
use name_places::{NamePlace, find_place};
use plan_file::PlanFault;
use plan_name::{Planned, Spot, place_refusal, refused};
use stable::Stable;
use std::alloc::Global;
use v7_map::attributes_of;
use v7_read::find;
use v7_sets::Sets;

/// Plans a MKDIR (RFC 1094 2.2.15): STALE, the refusals of the parent and the name, EXIST for a name that is there, then those of the new entry. The new
/// directory takes the lowest i-number that is free, and its entry the first empty slot, or one at the parent's end. Nothing is put. All memory that the
/// plan needs is taken here. What is new leaves the sets of what is free; after a fault they are as they were. Nothing is freed.
pub fn plan_mkdir<S: Stable>(
    alloc: Global,
    store: &mut S,
    sets: &mut Sets,
    dir: FileId,
    name: &Name,
    wanted: &Sattr,
    cred: &Cred,
    now: u32,
) -> Result<Planned, PlanFault>
    ensures planned { S.tells → IsStrong (frame (S.image store.old)) → AreSetsOf (S.image store.old) sets.old.blocks sets.old.inodes → IfOk result (λ r. IsPlannedCall (S.image store.old) (Mkdir dir name.now wanted.now, cred.now) now sets.new r) }
    ensures shape { HasShape S.Stable store.old store.new 5 IsHandleReply result }
    ensures takes { TakesOnly sets.old sets.new result }
{
    let found = find(store, dir)?;
    let Some(found) = found else {
        return Ok(refused(alloc, Stat::Stale));
    };
    let parent = attributes_of(dir.ino, &found.inode);
    match place_refusal(found.read_only, parent.kind, name) {
        Some(status) => return Ok(refused(alloc, status)),
        None => {}
    }
    let place = find_place(store, dir, &found, name)?;
    match place {
        NamePlace::Taken(_slot) => Ok(refused(alloc, Stat::Exist)),
        NamePlace::Empty(empty) => {
            let spot = Spot {
                directory: dir,
                ..empty
            };
            plan_in_place(alloc, store, sets, &parent, &spot, name, wanted, cred, now)
        }
        NamePlace::End => {
            plan_at_end(
                alloc,
                store,
                sets,
                dir,
                &found.inode,
                name,
                wanted,
                cred,
                now,
            )
        }
    }
}
