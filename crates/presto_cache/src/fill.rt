// Storing one entry.
ghost use Rattle.std.specs.Prelude.{◌≡◌, ◌⊎◌, ◌<◌, Some, length, false, IfErr};
ghost use Rattle.stable.specs.Counts.{HasCause};
ghost use Rattle.stable.specs.Moments.{LeavesOnly};
ghost use Rattle.rig.specs.Looked.{StaysOffDisk};
ghost use Rattle.presto_cache.specs.Slots.{at, settled};
ghost use Rattle.presto_cache.specs.Board.{KnowsSlots, PutsOnBoard};
ghost use Rattle.presto_cache.specs.Stores.{IsFill, IsFilled};
ghost use Rattle.presto_cache.specs.declared.slot.Slot.TheVariants.{Doubt};

use crate::place::slot_at;
use crate::slot::Slot;
use nvram_map::entry_word;
use rig::{Failed, Rig};

// Fills a buffer that no entry uses, and then lets the entry name it. After an error it says what is known of the entry.
pub fn fill<R: Rig>(
    slots: &[Slot],
    rig: &mut R,
    index: u32,
    sector: u32,
    buffer: u32,
    bytes: &[u8; 512],
) -> Result<(), Slot>
    requires knows { KnowsSlots R.Rig rig.old slots.now }
    requires fill { IsFill (R.sizes rig.old) slots.now index sector buffer }
    ensures failed { IfErr result (λ slot. (slot ≡ at slots.now index) ⊎ (slot ≡ Doubt sector (settled (at slots.now index)) (Some buffer) false)) }
    ensures told { R.tells → IsFilled slots.now index sector buffer bytes.now (R.contents rig.old) (R.contents rig.new) result }
    ensures crash { LeavesOnly R.moment R.left_since rig.old rig.new (PutsOnBoard (R.sizes rig.old) sector bytes.now (R.contents rig.old)) }
    ensures cause { HasCause (R.faults rig.old) (R.faults rig.new) result }
    ensures stays { StaysOffDisk R.Rig rig.old rig.new }
{
    let was = slot_at(slots, index);
    match rig.store_buffer(buffer, bytes) {
        Ok(()) => {}
        Err(Failed) => return Err(was),
    }
    match rig.store_word(index + 2, entry_word(sector, buffer)) {
        Ok(()) => Ok(()),
        Err(Failed) => Err(doubted(was, sector, buffer)),
    }
}

// An entry whose word may be the one that it had, or the one that names the buffer.
fn doubted(was: Slot, sector: u32, buffer: u32) -> Slot
    ensures { result ≡ Doubt sector (settled was) (Some buffer) false }
{
    Slot::Doubt {
        sector,
        older: settled_buffer(was),
        newer: Some(buffer),
        cleared: false,
    }
}

// The buffer that an entry has, where it isn't in doubt.
fn settled_buffer(slot: Slot) -> Option<u32>
    ensures { result ≡ settled slot }
{
    match slot {
        Slot::Set { buffer, .. } => Some(buffer),
        _ => None,
    }
}
