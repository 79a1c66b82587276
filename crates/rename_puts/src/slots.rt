// The slots of a RENAME.

ghost use Rattle.std.specs.Prelude.{◌≡◌, ◌<◌, ◌≤◌, [], length, None, IfOk, OnOk};
ghost use Rattle.plan_name.specs.Creating.{Builds};
ghost use Rattle.rename_puts.specs.Slots.{MovedWithin, PutsMoved};
ghost use Rattle.stable.specs.Counts.{HasCause};
ghost use Rattle.stable.specs.Looked.{Looked};
ghost use Rattle.stable.specs.Puts.{put_all, with_put, with_puts};
ghost use Rattle.v7_map.specs.Image.{sector_at};
ghost use Rattle.v7_strokes.specs.Slots.{PutsSlot};

use stable::{Failed, Plan, Stable};
use v7_layout::Slot;
use v7_strokes::{add_slot, empty_slot, planned_sector, with_slot};

/// A slot of a directory: its number, counted from 0, and the sector where it stands.
#[derive(Clone, Copy)]
pub struct SlotPlace {
    pub directory: u32,
    pub index: u32,
    pub sector: u32,
}

/// A name that moves: the slot that had it, which is emptied, and the one that gets the new name, with what it is to hold.
#[derive(Clone, Copy)]
pub struct Moved {
    pub old: SlotPlace,
    pub new: SlotPlace,
    pub slot: Slot,
}

/// Adds the put of this slot's sector, where the slot is empty then, and answers the sector. Where the plan's last put is of that sector, both are one.
pub(crate) fn add_emptied<S: Stable>(
    store: &mut S,
    plan: &mut Plan,
    place: &SlotPlace,
) -> Result<[u8; 512], Failed>
    requires room { length plan.old.puts < plan.old.room }
    requires place { place.now.sector < S.sector_count store.old }
    ensures added { IfOk result (λ bytes. plan.new ≡ with_puts plan.old (with_put plan.old.puts (place.now.sector, bytes))) }
    ensures put { S.tells → IfOk result (λ bytes. PutsSlot (sector_at (put_all plan.old.puts (S.image store.old)) place.now.sector) place.now.index bytes None) }
    ensures cause { HasCause (S.faults store.old) (S.faults store.new) result }
    ensures looked { Looked S.Stable store.old store.new }
{
    let sector = planned_sector(store, plan, place.sector)?;
    let changed = with_slot(&sector, place.index, &empty_slot());
    plan.add_or_replace(place.sector, &changed);
    Ok(changed)
}

/// Adds the puts of the slots of a name that moves: the new slot, and then the old one, so that a crash between them leaves both names; one put where
/// they stand in one sector. Nothing is put.
pub(crate) fn add_moved<S: Stable>(
    store: &mut S,
    plan: &mut Plan,
    moved: &Moved,
) -> Result<(), Failed>
    requires empty { plan.old.puts ≡ [] }
    requires room { 2 ≤ plan.old.room }
    requires within { MovedWithin (S.sector_count store.old) moved.now }
    ensures moved { S.tells → OnOk result (PutsMoved (S.image store.old) moved.now plan.new.puts) }
    ensures built { Builds S.Stable store.old store.new 2 plan.old plan.new result }
{
    let _new = add_slot(store, plan, moved.new.sector, moved.new.index, &moved.slot)?;
    let _old = add_emptied(store, plan, &moved.old)?;
    Ok(())
}
