// The puts of a RENAME that makes another directory longer.

ghost use Rattle.std.specs.Prelude.{◌≡◌, ◌≤◌, ℕ, List, [], OnOk};
ghost use Rattle.plan_name.specs.Creating.{MapWithin, Builds};
ghost use Rattle.rename_puts.specs.Renamed.{Renaming, asked_of, LengthensName, IsPlannedLonger};
ghost use Rattle.rename_puts.specs.Slots.{MovedWithin};
ghost use Rattle.v7_map.specs.Frame.{Place, frame};
ghost use Rattle.v7_map.specs.Weak.{IsStrong};
ghost use Rattle.v7_strokes.specs.Inodes.{BlocksFit};

use crate::slots::{Moved, add_emptied};
use plan_name::{Entry, Longer, add_map, add_new_slot};
use stable::{Failed, Plan, Stable};
use v7_strokes::{add_longer, add_times};

/// Adds the puts of a RENAME of what is no directory to the end of another directory (RFC 1094 2.2.12): the new slot's sector, the block of addresses if
/// it changes, that directory's inode, which is longer then, the old slot's sector, and the inode of the directory of the old name with its times.
/// Nothing is put.
pub fn add_longer_move<S: Stable>(
    store: &mut S,
    plan: &mut Plan,
    moved: &Moved,
    longer: &Longer,
    now: u32,
) -> Result<(), Failed>
    requires empty { plan.old.puts ≡ [] }
    requires room { 5 ≤ plan.old.room }
    requires within { MovedWithin (S.sector_count store.old) moved.now }
    requires longer { MapWithin (S.sector_count store.old) longer.now × BlocksFit longer.now.blocks }
    ensures planned { S.tells → IsStrong (frame (S.image store.old)) → (call : Renaming) (target : Place → ℕ) (new : List ℕ) → LengthensName (S.image store.old) call now moved.now longer.now target new → OnOk result (IsPlannedLonger (S.image store.old) (asked_of call) now new plan.new.puts) }
    ensures built { Builds S.Stable store.old store.new 5 plan.old plan.new result }
{
    let entry = Entry {
        directory: moved.new.directory,
        index: moved.new.index,
        sector: moved.new.sector,
        slot: moved.slot,
    };
    let _new = add_new_slot(store, plan, &entry, longer.fresh)?;
    add_map(plan, &longer.map);
    let _longer = add_longer(store, plan, moved.new.directory, &longer.blocks, now)?;
    let _old = add_emptied(store, plan, &moved.old)?;
    let _times = add_times(store, plan, moved.old.directory, now)?;
    Ok(())
}
