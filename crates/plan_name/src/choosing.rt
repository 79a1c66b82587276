// Which free blocks a directory takes that gets longer by a slot.

ghost use Rattle.std.specs.Prelude.{◌≡◌, ◌≢◌, ◌<◌, ◌≤◌, ◌+◌, ℕ, min, get_or, Some, None, IfSome, IfNone};
ghost use Rattle.index_sets.specs.Free.{IsLowestFrom, count_free};
ghost use Rattle.plan_file.specs.Free.{AreSpare};
ghost use Rattle.plan_file.specs.Places.{AreWithin, AreThrough};
ghost use Rattle.plan_name.specs.LayingOut.{needed_blocks, IsSectorBlock, IsMapBlock, AreChosen, ChosenWithin};

use index_sets::FreeSet;
use plan_file::Places;

/// The most sectors that a volume has.
const MOST_SECTORS: u32 = 1_048_576;

/// The block of a sector of a directory, and the one with the addresses of all but the first ten, 0 for none.
#[derive(Clone, Copy)]
pub struct Chosen {
    pub sector: u32,
    pub single: u32,
}

/// The lowest free block from a number on, None where there is none, or one that no volume of so many sectors can have free.
pub fn spare_block(blocks: &FreeSet, from: u32, sectors: u32) -> Option<u32>
    ensures lowest { IfSome result (λ a. IsLowestFrom blocks.now from (Some a)) }
    ensures within { IfSome result (λ a. (2 ≤ a) × (a < min sectors 1048576)) }
    ensures none { IfNone result (AreSpare sectors blocks.now → IsLowestFrom blocks.now from None) }
{
    let Some(block) = blocks.lowest_from(from) else {
        return None;
    };
    if block < 2 {
        return None;
    }
    if block >= sectors.min(MOST_SECTORS) {
        return None;
    }
    Some(block)
}

// The block of a sector, the lowest free one where it has none.
fn choose_sector(blocks: &FreeSet, places: &Places, index: usize, sectors: u32) -> Option<u32>
    requires place { index < 138 }
    requires within { AreWithin (min sectors 1048576) places.now }
    ensures chosen { IfSome result (IsSectorBlock blocks.now places.now index) }
    ensures within { IfSome result (λ a. (2 ≤ a) × (a < min sectors 1048576)) }
    ensures none { IfNone result (AreSpare sectors blocks.now → (get_or places.now.body index 0 ≡ 0) × IsLowestFrom blocks.now 0 None) }
{
    let held = places.body[index];
    if held != 0 {
        return Some(held);
    }
    spare_block(blocks, 0, sectors)
}

// The block of addresses, the lowest free one from a number on where the sector is reached through one and there is none.
fn choose_single(
    blocks: &FreeSet,
    places: &Places,
    index: usize,
    from: u32,
    sectors: u32,
) -> Option<u32>
    requires { AreWithin (min sectors 1048576) places.now }
    ensures chosen { IfSome result (IsMapBlock blocks.now places.now index from) }
    ensures within { IfSome result (λ a. a ≢ 0 → (2 ≤ a) × (a < min sectors 1048576)) }
    ensures none { IfNone result (AreSpare sectors blocks.now → (places.now.single ≡ 0) × (10 ≤ index) × IsLowestFrom blocks.now from None) }
{
    if index < 10 {
        return Some(places.single);
    }
    if places.single != 0 {
        return Some(places.single);
    }
    spare_block(blocks, from, sectors)
}

/// Chooses the block of a sector of a directory, and its block of addresses where the sector is reached through one: those that it has, and else the
/// lowest free ones, that of the sector first. None where fewer are free than it takes, or a set has a block that no volume of so many sectors can
/// have free.
pub fn choose(blocks: &FreeSet, places: &Places, index: usize, sectors: u32) -> Option<Chosen>
    requires place { index < 138 }
    requires within { AreWithin (min sectors 1048576) places.now }
    requires through { AreThrough places.now }
    ensures chosen { IfSome result (λ c. AreChosen blocks.now places.now index c.sector c.single) }
    ensures within { IfSome result (ChosenWithin sectors) }
    ensures none { IfNone result (AreSpare sectors blocks.now → count_free blocks.now < needed_blocks places.now index) }
{
    let Some(sector) = choose_sector(blocks, places, index, sectors) else {
        return None;
    };
    let Some(single) = choose_single(blocks, places, index, sector + 1, sectors) else {
        return None;
    };
    Some(Chosen { sector, single })
}
