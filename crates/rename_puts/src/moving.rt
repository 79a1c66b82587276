// The puts of a RENAME into an empty slot of another directory.

ghost use Rattle.std.specs.Prelude.{◌≡◌, ◌≤◌, [], OnOk};
ghost use Rattle.plan_name.specs.Creating.{Builds};
ghost use Rattle.rename_puts.specs.Renamed.{Renaming, asked_of, MovesName, IsPlannedStaying};
ghost use Rattle.rename_puts.specs.Slots.{MovedWithin};
ghost use Rattle.v7_map.specs.Frame.{frame};
ghost use Rattle.v7_map.specs.Weak.{IsStrong};

use crate::slots::{Moved, add_moved};
use crate::times::{add_timed, rising};
use stable::{Failed, Plan, Stable};

/// Adds the puts of a RENAME of what is no directory into an empty slot of another directory (RFC 1094 2.2.12): the new slot's sector, the old slot's, and
/// the inodes of the two directories with their times, in rising number; inodes of one sector are one put. Nothing is put.
pub fn add_move<S: Stable>(
    store: &mut S,
    plan: &mut Plan,
    moved: &Moved,
    now: u32,
) -> Result<(), Failed>
    requires empty { plan.old.puts ≡ [] }
    requires room { 4 ≤ plan.old.room }
    requires within { MovedWithin (S.sector_count store.old) moved.now }
    ensures planned { S.tells → IsStrong (frame (S.image store.old)) → (call : Renaming) → MovesName (S.image store.old) call now moved.now → OnOk result (IsPlannedStaying (S.image store.old) (asked_of call) now plan.new.puts) }
    ensures built { Builds S.Stable store.old store.new 4 plan.old plan.new result }
{
    add_moved(store, plan, moved)?;
    let timed = rising(moved.old.directory, moved.new.directory);
    add_timed(store, plan, &timed, now)?;
    Ok(())
}
