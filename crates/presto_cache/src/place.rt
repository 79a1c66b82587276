// Where a sector goes.
ghost use Rattle.std.specs.Prelude.{◌≡◌, ◌<◌, true, length};
ghost use Rattle.presto_cache.specs.Slots.{is_dirty, sector_of, is_for, find_in, at};

use crate::slot::Slot;

fn is_entry_for(slot: &Slot, sector: u32) -> bool
    ensures { result ≡ is_for sector slot.now }
{
    match slot {
        Slot::Free => false,
        Slot::Set { sector: own, .. } => *own == sector,
        Slot::Doubt { sector: own, .. } => *own == sector,
    }
}

// The entry of a sector.
pub fn find(slots: &[Slot], sector: u32) -> Option<usize>
    ensures { result ≡ find_in slots.now sector }
{
    slots.iter().position(|slot| is_entry_for(slot, sector))
}

pub fn slot_at(slots: &[Slot], index: u32) -> Slot
    requires { index < length slots.now }
    ensures { result ≡ at slots.now index }
{
    slots[index as usize]
}

pub fn slot_sector(slot: Slot) -> u32
    requires { is_dirty slot ≡ true }
    ensures { result ≡ sector_of slot }
{
    match slot {
        Slot::Free => 0,
        Slot::Set { sector, .. } => sector,
        Slot::Doubt { sector, .. } => sector,
    }
}

pub fn is_taken(slot: &Slot) -> bool
    ensures { result ≡ is_dirty slot.now }
{
    !matches!(slot, Slot::Free)
}
