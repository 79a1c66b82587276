// A board's entries, as their cache knows them.
ghost use Rattle.std.specs.Prelude.{◌≡◌, ◌≤◌, length};
ghost use Rattle.presto_cache.specs.Slots.{AreSlots};
ghost use Rattle.presto_cache.specs.Order.{IsOrderOf, listed, room_of};
ghost use Rattle.presto_cache.specs.Spare.{IsSpareOf};

use crate::clear::{clear, failed_to_clear};
use crate::fill::fill;
use crate::made::slots_for;
use crate::order::Order;
use crate::place::{find, is_taken, slot_at, slot_sector};
use crate::slot::Slot;
use crate::spare::Spare;
use crate::word::read_as;
use nvram_map::Board;
use rig::{Failed, NoMemory, Rig};
use std::alloc::Global;

/// What became of a sector that was to be kept.
#[derive(Clone, Copy, Debug, PartialEq, Eq)]
pub enum Keep {
    /// The board has its bytes.
    Kept,
    /// It has no entry, and no entry is free. Nothing was done.
    Full,
    /// The board failed: the sector is as it was, or as it was to be.
    Failed,
}

/// What is known of each entry of a board, and the order in which the entries that are set or in doubt, the dirty ones,
/// are to be sent to the disk. There is one entry fewer than buffers.
///
/// An entry whose last word store failed is in doubt. It counts as dirty, and both its buffers stay taken, that of the
/// older word and that of the newer.
#[derive(Drop)]
pub struct Cache {
    slots: Vec<Slot>,
    order: Order,
    spare: Spare,
    buffers: u32,
    pub ghost are: { AreSlots buffers slots.items },
    pub ghost ordered: { IsOrderOf slots.items (listed order) },
    ghost room: { room_of order ≡ length slots.items },
    ghost unused: { IsSpareOf buffers slots.items spare },
}

impl Cache {
    ghost use Rattle.std.specs.Prelude.{◌≡◌, ◌<◌, ℕ, true, [], get_or, set, IfOk, IfSome, IsOk, false};
    ghost use Rattle.std.specs.List.{count_by};
    ghost use Rattle.stable.specs.Counts.{HasCause};
    ghost use Rattle.stable.specs.Moments.{LeavesOnly};
    ghost use Rattle.rig.specs.Devices.{Devices, Sizes};
    ghost use Rattle.rig.specs.Looked.{Looked, StaysOffDisk};
    ghost use Rattle.nvram_map.specs.Boards.{FitBoard, FitBuffers};
    ghost use Rattle.nvram_map.specs.Overlay.{overlay};
    ghost use Rattle.presto_cache.specs.Slots.{NoDoubt, IsLowestUnused, at, is_dirty, in_doubt, sector_of, find_in, place_in};
    ghost use Rattle.presto_cache.specs.Entries.{AreByIndex, oldest_in};
    ghost use Rattle.presto_cache.specs.Made.{AreReadFrom, IsMadeOf};
    ghost use Rattle.presto_cache.specs.Board.{IsOf, PutsOnBoard, KeepsOnBoard};
    ghost use Rattle.presto_cache.specs.Stores.{on_disk_at};
    ghost use Rattle.presto_cache.specs.Cache.{slots_of, entries_of, buffers_of, Suits, Knows, Becomes, IsLast};
    ghost use Rattle.presto_cache.specs.Calls.{KeepAnswers, DropAnswers, IsBufferAt};

    /// A cache of what a board was read to have: its set entries are dirty, ordered by index, and the others free. `buffers`
    /// is the number of the board's buffers, up to 2,048. No later call takes memory.
    pub fn new(alloc: Global, board: &Board, buffers: u32) -> Result<Cache, NoMemory>
        requires few { buffers ≤ 2048 }
        requires board { FitBuffers buffers board.now.entries }
        ensures buffers { IfOk result (λ cache. buffers_of cache ≡ buffers) }
        ensures slots { IfOk result (λ cache. IsMadeOf board.now.entries (slots_of cache)) }
        ensures sure { IfOk result (λ cache. NoDoubt (slots_of cache)) }
        ensures suits { IfOk result (λ cache. (sizes : Sizes) → buffers ≡ sizes.buffers → FitBoard sizes board.now.entries → Suits sizes cache) }
        ensures is { IfOk result (λ cache. (sizes : Sizes) (d : Devices) → buffers ≡ sizes.buffers → AreReadFrom sizes board.now.entries d → IsOf (slots_of cache) d) }
        ensures order { IfOk result (λ cache. AreByIndex (entries_of cache)) }
    {
        let slots = slots_for(alloc, board.entries.list(), buffers)?;
        let order = Order::by_index(alloc, &slots)?;
        let spare = Spare::of(alloc, &slots, buffers)?;
        Ok(Cache {
            slots,
            order,
            spare,
            buffers,
        })
    }

    /// The index of the entry of a sector, from 0; None where no dirty entry is of it.
    pub fn find(&self, sector: u32) -> Option<u32>
        ensures { result ≡ find_in (slots_of self.now) sector }
    {
        match find(&self.slots, sector) {
            Some(index) => Some(index as u32),
            None => None,
        }
    }

    /// Keeps the bytes of a sector on the board: they fill the lowest buffer that no entry has, and then one word is stored,
    /// that of the sector's entry, or of the lowest free one, which becomes the youngest.
    ///
    /// At each moment of the call the sector is old or new, and each other is as it was; after Kept it is new. No sector of the
    /// disk is written. Full comes exactly where the sector has no entry and none is free. After Failed the entry is as it
    /// was, or in doubt. No entry may be in doubt before, since with one there may be no buffer to spare.
    pub fn keep<R: Rig>(&mut self, rig: &mut R, sector: u32, bytes: &[u8; 512]) -> Keep
        requires knows { Knows R.Rig rig.old self.old }
        requires sector { sector < (R.sizes rig.old).sectors }
        requires sure { NoDoubt (slots_of self.old) }
        ensures answers { KeepAnswers R.Rig sector bytes.now rig.old rig.new self.old self.new result }
        ensures knows { Knows R.Rig rig.new self.new }
        ensures crash { LeavesOnly R.moment R.left_since rig.old rig.new (PutsOnBoard (R.sizes rig.old) sector bytes.now (R.contents rig.old)) }
        ensures stays { StaysOffDisk R.Rig rig.old rig.new }
    {
        let Some(index) = self.place(sector) else {
            return Keep::Full;
        };
        let buffer = self.lowest_unused();
        match fill(&self.slots, rig, index, sector, buffer, bytes) {
            Ok(()) => {
                self.know(index, Slot::Set { sector, buffer });
                Keep::Kept
            }
            Err(slot) => {
                self.know(index, slot);
                Keep::Failed
            }
        }
    }

    /// Clears an entry, from 0: its word becomes 0, its sector is that of the disk, and it is free. A free entry stays so.
    ///
    /// At each moment of the call the sector is as it was, or as on the disk: where the disk has the same bytes, nothing
    /// that the board completes changes. No sector of the disk is written. After Failed the entry keeps its place, and is
    /// in doubt.
    pub fn drop_entry<R: Rig>(&mut self, rig: &mut R, index: u32) -> Result<(), Failed>
        requires knows { Knows R.Rig rig.old self.old }
        requires index { index < length (slots_of self.old) }
        ensures answers { DropAnswers R.Rig index rig.old rig.new self.old self.new result }
        ensures knows { Knows R.Rig rig.new self.new }
        ensures crash { LeavesOnly R.moment R.left_since rig.old rig.new (PutsOnBoard (R.sizes rig.old) (sector_of (at (slots_of self.old) index)) (on_disk_at (slots_of self.old) index (R.contents rig.old)) (R.contents rig.old)) }
        ensures keeps { R.tells → on_disk_at (slots_of self.old) index (R.contents rig.old) ≡ get_or (overlay (R.contents rig.old)) (sector_of (at (slots_of self.old) index)) []
            → LeavesOnly R.moment R.left_since rig.old rig.new (KeepsOnBoard (R.sizes rig.old) (R.contents rig.old)) }
        ensures stays { StaysOffDisk R.Rig rig.old rig.new }
    {
        if !is_taken(&slot_at(&self.slots, index)) {
            return Ok(());
        }
        match clear(&self.slots, rig, index) {
            Ok(()) => {
                self.know(index, Slot::Free);
                Ok(())
            }
            Err(Failed) => {
                let slot = failed_to_clear(slot_at(&self.slots, index));
                self.know(index, slot);
                Err(Failed)
            }
        }
    }

    /// The buffer that the word of a dirty entry names.
    ///
    /// Of an entry in doubt the word is loaded. The older and the newer word are read as what they say, and 0 as no entry,
    /// which is None; any other word, which no rig has that tells its contents, is taken as the older. Failed comes where the
    /// load failed; of an entry that isn't in doubt nothing is loaded.
    pub fn buffer_at<R: Rig>(&self, rig: &mut R, index: u32) -> Result<Option<u32>, Failed>
        requires knows { Knows R.Rig rig.old self.now }
        requires index { index < length (slots_of self.now) }
        requires dirty { is_dirty (at (slots_of self.now) index) ≡ true }
        ensures read { IfOk result (IsBufferAt R.Rig rig.old self.now index) }
        ensures sure { in_doubt (at (slots_of self.now) index) ≡ false → IsOk result × (rig.new ≡ rig.old) }
        ensures cause { HasCause (R.faults rig.old) (R.faults rig.new) result }
        ensures looked { Looked R.Rig rig.old rig.new }
        ensures knows { Knows R.Rig rig.new self.now }
    {
        match slot_at(&self.slots, index) {
            Slot::Free => Ok(None),
            Slot::Set { buffer, .. } => Ok(Some(buffer)),
            Slot::Doubt {
                sector,
                older,
                newer,
                ..
            } => {
                let word = rig.load_word(index + 2)?;
                Ok(read_as(word, sector, older, newer))
            }
        }
    }

    /// The index of the dirty entry that stands first in order; None where none is dirty.
    pub fn oldest(&self) -> Option<u32>
        ensures oldest { result ≡ oldest_in (entries_of self.now) }
        ensures dirty { IfSome result (λ index. (index < length (slots_of self.now)) × (is_dirty (at (slots_of self.now) index) ≡ true)) }
    {
        self.order.oldest()
    }

    /// Moves a dirty entry to the last place of the order.
    pub fn put_last(&mut self, index: u32)
        requires index { index < length (slots_of self.old) }
        requires dirty { is_dirty (at (slots_of self.old) index) ≡ true }
        ensures { IsLast index self.old self.new }
    {
        self.order.put_last(index);
    }

    /// How many entries are dirty.
    pub fn dirty(&self) -> u32
        ensures number { result ≡ count_by is_dirty (slots_of self.now) }
        ensures listed { result ≡ length (entries_of self.now) }
        ensures none { result ≡ 0 → (index : ℕ) → is_dirty (at (slots_of self.now) index) ≡ false }
    {
        self.order.len()
    }

    /// The sector of a dirty entry.
    pub fn sector_at(&self, index: u32) -> u32
        requires index { index < length (slots_of self.now) }
        requires dirty { is_dirty (at (slots_of self.now) index) ≡ true }
        ensures { result ≡ sector_of (at (slots_of self.now) index) }
    {
        slot_sector(slot_at(&self.slots, index))
    }

    // The entry of a sector, or the lowest free one.
    fn place(&self, sector: u32) -> Option<u32>
        ensures { result ≡ place_in (slots_of self.now) sector }
    {
        match self.find(sector) {
            Some(index) => Some(index),
            None => self.spare.lowest_entry(),
        }
    }

    // The lowest buffer that no entry takes: there are more buffers than entries.
    fn lowest_unused(&self) -> u32
        requires sure { NoDoubt (slots_of self.now) }
        requires some { 0 < buffers_of self.now }
        ensures lowest { IsLowestUnused (slots_of self.now) result }
        ensures in_range { result < buffers_of self.now }
    {
        match self.spare.lowest_buffer() {
            Some(buffer) => buffer,
            None => 0,
        }
    }

    // Knows this of an entry from now on.
    fn know(&mut self, index: u32, slot: Slot)
        requires index { index < length (slots_of self.old) }
        requires slots { AreSlots (buffers_of self.old) (set (slots_of self.old) index slot) }
        ensures is { Becomes index slot self.old self.new }
        ensures buffers { buffers_of self.new ≡ buffers_of self.old }
    {
        let was = slot_at(&self.slots, index);
        self.slots[index as usize] = slot;
        self.order.follow(index, is_taken(&was), is_taken(&slot));
        self.spare.follow(index, was, slot);
    }
}

#[cfg(test)]
mod tests;
