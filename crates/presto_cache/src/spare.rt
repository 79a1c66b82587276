// What is free of a board: the only file that knows how it is kept.
ghost use Rattle.std.specs.Prelude.{◌≡◌, ◌^◌, ◌<◌, ℕ, true, false, not, set, length, IfOk};
ghost use Rattle.index_sets.specs.Free.{is_free, IsLowestFrom};
ghost use Rattle.presto_cache.specs.Slots.{is_dirty};
ghost use Rattle.presto_cache.specs.Spare.{IsSpareOf, marked, marked_one};

use crate::place::{is_taken, slot_at};
use crate::slot::Slot;
use index_sets::FreeSet;
use rig::NoMemory;
use std::alloc::Global;

/// The buffers that no entry takes, and the entries that are free.
#[derive(Drop)]
pub struct Spare {
    buffers: FreeSet,
    entries: FreeSet,
}

impl Spare {
    /// What is free beside these entries.
    pub fn of(alloc: Global, slots: &[Slot], buffers: u32) -> Result<Spare, NoMemory>
        requires { length slots.now < 2 ^ 32 }
        ensures { IfOk result (IsSpareOf buffers slots.now) }
    {
        let buffers = all_free(alloc, buffers)?;
        let entries = FreeSet::new(alloc, slots.len() as u32)?;
        let mut spare = Spare { buffers, entries };
        for index in 0..slots.len() as u32 {
            spare.follow(index, Slot::Free, slot_at(slots, index));
        }
        Ok(spare)
    }

    /// The lowest buffer that no entry takes.
    pub fn lowest_buffer(&self) -> Option<u32>
        ensures { IsLowestFrom self.now.buffers 0 result }
    {
        self.buffers.lowest_from(0)
    }

    /// The lowest free entry.
    pub fn lowest_entry(&self) -> Option<u32>
        ensures { IsLowestFrom self.now.entries 0 result }
    {
        self.entries.lowest_from(0)
    }

    /// After this was known of an entry, and now that is: its buffers were taken, and are free but for those that it takes now.
    pub fn follow(&mut self, index: u32, was: Slot, is: Slot)
        ensures buffers { self.new.buffers ≡ marked is false (marked was true self.old.buffers) }
        ensures entries { self.new.entries ≡ set self.old.entries index (not (is_dirty is)) }
    {
        self.mark(was, true);
        self.mark(is, false);
        if is_taken(&is) {
            self.entries.take(index);
        } else {
            self.entries.give(index);
        }
    }

    // Gives or takes the buffers of an entry; in doubt, of the older and the newer word.
    fn mark(&mut self, slot: Slot, free: bool)
        ensures buffers { self.new.buffers ≡ marked slot free self.old.buffers }
        ensures entries { self.new.entries ≡ self.old.entries }
    {
        match slot {
            Slot::Free => {}
            Slot::Set { buffer, .. } => self.mark_one(Some(buffer), free),
            Slot::Doubt { older, newer, .. } => {
                self.mark_one(older, free);
                self.mark_one(newer, free);
            }
        }
    }

    // Gives or takes a buffer.
    fn mark_one(&mut self, buffer: Option<u32>, free: bool)
        ensures buffers { self.new.buffers ≡ marked_one buffer free self.old.buffers }
        ensures entries { self.new.entries ≡ self.old.entries }
    {
        match buffer {
            Some(buffer) if free => self.buffers.give(buffer),
            Some(buffer) => self.buffers.take(buffer),
            None => {}
        }
    }
}

// All numbers below a size.
fn all_free(alloc: Global, size: u32) -> Result<FreeSet, NoMemory>
    ensures size { IfOk result (λ free. length free ≡ size) }
    ensures each { IfOk result (λ free. (i : ℕ) → i < size → is_free free i ≡ true) }
{
    let mut free = FreeSet::new(alloc, size)?;
    for number in 0..size {
        free.give(number);
    }
    Ok(free)
}
