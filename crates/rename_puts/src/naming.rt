// The puts of a RENAME inside one directory to a name that is free.

ghost use Rattle.std.specs.Prelude.{◌≡◌, ◌≤◌, [], OnOk};
ghost use Rattle.plan_name.specs.Creating.{Builds};
ghost use Rattle.rename_puts.specs.Renamed.{Renaming, asked_of, GivesName, IsPlannedStaying};
ghost use Rattle.rename_puts.specs.Slots.{PlaceWithin};
ghost use Rattle.v7_map.specs.Frame.{frame};
ghost use Rattle.v7_map.specs.Weak.{IsStrong};

use crate::slots::SlotPlace;
use crate::times::add_one;
use stable::{Failed, Plan, Stable};
use v7_layout::Slot;
use v7_strokes::add_slot;

/// Adds the puts of a RENAME inside one directory to a name that is free (RFC 1094 2.2.12), of a file or a directory: the slot's sector, with the new
/// name, and then the directory's inode with its times. Nothing is put.
pub fn add_new_name<S: Stable>(
    store: &mut S,
    plan: &mut Plan,
    place: &SlotPlace,
    slot: &Slot,
    now: u32,
) -> Result<(), Failed>
    requires empty { plan.old.puts ≡ [] }
    requires room { 2 ≤ plan.old.room }
    requires within { PlaceWithin (S.sector_count store.old) place.now }
    ensures planned { S.tells → IsStrong (frame (S.image store.old)) → (call : Renaming) → GivesName (S.image store.old) call now place.now slot.now → OnOk result (IsPlannedStaying (S.image store.old) (asked_of call) now plan.new.puts) }
    ensures built { Builds S.Stable store.old store.new 2 plan.old plan.new result }
{
    let _slot = add_slot(store, plan, place.sector, place.index, slot)?;
    add_one(store, plan, Some(place.directory), now)?;
    Ok(())
}
