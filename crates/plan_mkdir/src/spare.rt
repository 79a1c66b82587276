// What a new directory takes.

ghost use Rattle.std.specs.Prelude.{◌≡◌, ◌<◌, ◌≤◌, min, Some, None, IfSome, IfNone};
ghost use Rattle.index_sets.specs.Free.{IsLowestFrom};
ghost use Rattle.plan_file.specs.Free.{AreSpare};
ghost use Rattle.plan_mkdir.specs.Making.{NewWithin};
ghost use Rattle.plan_mkdir.specs.Spare.{past, past_new};
ghost use Rattle.plan_name.specs.Created.{CanBeNumber};

use crate::directories::NewDirectory;
use index_sets::FreeSet;
use plan_name::{NewBlocks, can_be_number};

/// The most sectors that a volume has.
const MOST_SECTORS: u32 = 1_048_576;

// One past a block; 0 where there is none. One past 2 ^ 32 - 1, which no volume has, is that.
fn past(block: Option<u32>) -> u32
    ensures { IfSome block (λ a. a < 4294967295) → result ≡ past block }
{
    match block {
        Some(number) => number.saturating_add(1),
        None => 0,
    }
}

/// One past the new blocks of a parent; 0 where none is new.
pub(crate) fn past_new(new: &NewBlocks) -> u32
    ensures { IfSome new.now.sector (λ a. a < 4294967295) → IfSome new.now.map (λ a. a < 4294967295) → result ≡ past_new new.now.sector new.now.map }
{
    match new.map {
        Some(map) => map.saturating_add(1),
        None => past(new.sector),
    }
}

// The lowest free block from a number on, None where there is none, or one that no volume of so many sectors can have free.
fn spare_block(blocks: &FreeSet, from: u32, sectors: u32) -> Option<u32>
    ensures lowest { IfSome result (λ a. IsLowestFrom blocks.now from (Some a)) }
    ensures within { IfSome result (λ a. (2 ≤ a) × (a < min sectors 1048576)) }
    ensures none { IfNone result (AreSpare sectors blocks.now → IsLowestFrom blocks.now from None) }
{
    let Some(block) = blocks.lowest_from(from) else {
        return None;
    };
    if block < 2 {
        return None;
    }
    if block >= sectors.min(MOST_SECTORS) {
        return None;
    }
    Some(block)
}

/// The new directory of this number, in the lowest free block from one on. None where no block is free there, or no volume of so many sectors can have it or
/// its parent.
pub(crate) fn choose_new(
    blocks: &FreeSet,
    ino: u32,
    parent: u32,
    from: u32,
    sectors: u32,
) -> Option<NewDirectory>
    ensures chosen { IfSome result (λ new. (new.ino ≡ ino) × IsLowestFrom blocks.now from (Some new.block)) }
    ensures within { IfSome result (λ new. NewWithin sectors new × CanBeNumber sectors parent) }
    ensures none { IfNone result (AreSpare sectors blocks.now → CanBeNumber sectors ino → CanBeNumber sectors parent → IsLowestFrom blocks.now from None) }
{
    if !can_be_number(sectors, ino) {
        return None;
    }
    if !can_be_number(sectors, parent) {
        return None;
    }
    let Some(block) = spare_block(blocks, from, sectors) else {
        return None;
    };
    Some(NewDirectory { ino, block })
}
