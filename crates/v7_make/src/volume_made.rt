// A volume is made.

ghost use Rattle.std.specs.Prelude.{◌≡◌, ◌≤◌, ◌+◌, IfOk};
ghost use Rattle.stable.specs.Moments.{LeavesOnly};
ghost use Rattle.stable.specs.States.{SomePuts};
ghost use Rattle.stable.specs.Store.{StaysOpenable, name_in};
ghost use Rattle.v7_map.specs.Image.{sector_at};
ghost use Rattle.v7_make.specs.Made.{IsAnswered, IsMade, KeepsOutside, make_puts};
ghost use Rattle.v7_make.specs.Sets.{AreFrom};
ghost use Rattle.v7_make.specs.Sizes.{list_blocks};

use crate::fault::MakeFault;
use crate::put_fresh::put_volume;
use crate::sizes::{fits, list_blocks};
use crate::stop::write_chain;
use index_sets::FreeSet;
use stable::{NoMemory, Stable};
use std::alloc::Global;

// The set for the numbers below a size, of which those from one on are free.
fn numbers_from(alloc: Global, from: u32, size: u32) -> Result<FreeSet, NoMemory>
    ensures { IfOk result (AreFrom from size) }
{
    let mut numbers = FreeSet::new(alloc, size)?;
    for number in from..size {
        numbers.give(number);
    }
    Ok(numbers)
}

/// Makes a volume of so many sectors and inodes, these rounded up to a multiple of eight, of this name and at that second. It has
/// the root alone: mode 040755, two links, uid and gid 0, 32 bytes, generation 1. It answers how many blocks are free.
///
/// Sizes are refused as by `fits`. These refusals and NoMemory change nothing. At each moment, and after Failed, no sector has changed
/// but those from the super-block to the end of the volume. A store whose volume has this name already stays one that can be opened.
pub fn make<S: Stable>(
    alloc: Global,
    store: &mut S,
    size: u32,
    inodes: u32,
    name: [u8; 6],
    now: u32,
) -> Result<u32, MakeFault>
    requires place { size ≤ S.sector_count store.old }
    requires some { 1 ≤ inodes }
    ensures made { S.tells → IfOk result (λ left. IsMade (S.image store.new) size (2 + list_blocks inodes) name now left) }
    ensures answered { IsAnswered S.Stable size inodes store.old store.new result }
    ensures crash { LeavesOnly S.moment S.left_since store.old store.new (KeepsOutside size (S.image store.old)) }
    ensures opens { S.tells → name_in (sector_at (S.image store.old) 1) ≡ name → StaysOpenable S.opens_since S.moment store.old store.new }
    ensures sectors { S.sector_count store.new ≡ S.sector_count store.old }
    ensures snapshot { SomePuts (make_puts size inodes) (S.faults store.old) (S.faults store.new) (S.snapshot_of store.old) (S.snapshot_of store.new) }
{
    fits(size, inodes)?;
    let isize = 2 + list_blocks(inodes);
    let blocks = numbers_from(alloc, isize + 1, size)?;
    let numbers = numbers_from(alloc, 3, 8 * (isize - 2) + 1)?;
    put_volume(store, size, isize, name, now)?;
    write_chain(store, &blocks, &numbers, now)?;
    Ok(size - isize - 1)
}
