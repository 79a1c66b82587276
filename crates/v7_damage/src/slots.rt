// The slots of a directory.

ghost use Rattle.std.specs.Prelude.{◌≡◌, ◌<◌, ◌≤◌, ◌++◌, map, length, IfOk, OnOk, IsErrOf};
ghost use Rattle.std.specs.List.{range_with_len};
ghost use Rattle.stable.specs.Counts.{HasCause, Rose};
ghost use Rattle.stable.specs.Looked.{Looked};
ghost use Rattle.v7_map.specs.Frame.{frame};
ghost use Rattle.v7_map.specs.Image.{inode_sector, sector_at};
ghost use Rattle.v7_damage.specs.Slots.{seen_slot};
ghost use Rattle.v7_damage.specs.Stored.{slot_in_sector};
ghost use Rattle.v7_damage.specs.Tables.{AreSectors, CanRead};
ghost use Rattle.v7_damage.specs.Tests.{NotDamaged};
ghost use Rattle.v7_damage.specs.declared.damage.RepairFault.TheVariants as fault;

use crate::bodies::{Bodies, Sectors, block_of, find_sectors};
use crate::damage::RepairFault;
use stable::{Failed, NoMemory, Stable};
use v7_layout::{Record, Slot};
use v7_read::{empty_sector, get_sector};

// Reads the sector at an address, zeros where it isn't one of the store's.
fn sector_or_empty<S: Stable>(store: &mut S, address: u32) -> Result<[u8; 512], Failed>
    ensures done { S.tells → address < S.sector_count store.old → IfOk result (λ bytes. bytes ≡ sector_at (S.image store.old) address) }
    ensures cause { HasCause (S.faults store.old) (S.faults store.new) result }
    ensures looked { Looked S.Stable store.old store.new }
{
    if address >= store.sectors() {
        return Ok(empty_sector());
    }
    get_sector(store, address)
}

// Slot `index` of a sector.
fn slot_at(bytes: &[u8; 512], index: usize) -> Slot
    requires { index < 32 }
    ensures { result ≡ slot_in_sector bytes.now index }
{
    let at = 16 * index;
    Slot::read(&bytes[at..at + 16])
}

// Puts the first slots of a sector at the end of a list.
fn add_slots(bytes: &[u8; 512], count: usize, slots: &mut Vec<Slot>) -> Result<(), NoMemory>
    requires { count ≤ 32 }
    ensures { OnOk result (slots.new.items ≡ slots.old.items ++ map (slot_in_sector bytes.now) (range_with_len 0 count)) }
{
    for index in 0..count {
        slots.push(slot_at(bytes, index))?;
    }
    Ok(())
}

/// Reads the slots of a directory into a list, whatever was in it, and tells where its sectors stand. Nothing is changed.
pub(crate) fn read_directory<S: Stable>(
    store: &mut S,
    bodies: &Bodies,
    ino: u16,
    slots: &mut Vec<Slot>,
) -> Result<Sectors, RepairFault>
    requires stands { inode_sector ino < S.sector_count store.old }
    requires counts { ino < length bodies.now.slots.items }
    requires starts { ino < length bodies.now.starts.items }
    ensures slots { S.tells → CanRead (S.image store.old) bodies.now ino → OnOk result (map seen_slot slots.new.items ≡ (frame (S.image store.old)).slots ino) }
    ensures sectors { S.tells → CanRead (S.image store.old) bodies.now ino → IfOk result (λ sectors. AreSectors (frame (S.image store.old)) bodies.now sectors ino) }
    ensures undamaged { NotDamaged result }
    ensures cause { IsErrOf result fault.Failed → Rose (S.faults store.old) (S.faults store.new) }
    ensures looked { Looked S.Stable store.old store.new }
{
    let sectors = find_sectors(store, bodies, ino)?;
    slots.clear();
    let count = bodies.slots[ino as usize] as usize;
    for index in 0..count.div_ceil(32) {
        let block = block_of(bodies, &sectors, index);
        let bytes = sector_or_empty(store, block)?;
        add_slots(&bytes, (count - 32 * index).min(32), slots)?;
    }
    Ok(sectors)
}
