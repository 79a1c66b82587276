// Where the blocks of a directory are to stand that gets longer by a slot.

ghost use Rattle.std.specs.Prelude.{◌≡◌, ◌<◌, ◌≤◌, ◌+◌, ◌-◌, ◌*◌, ◌/◌, ◌^◌, ℕ, Bool, List, min, length, get_or, All, IfSome, IfNone, IsSomeAnd, IfOk};
ghost use Rattle.index_sets.specs.Free.{count_free};
ghost use Rattle.name_plans.specs.Taken.{taken};
ghost use Rattle.plan_file.specs.Free.{AreSpare, count_from};
ghost use Rattle.plan_file.specs.Places.{AreWithin, AreThrough};
ghost use Rattle.plan_name.specs.Growth.{added_blocks};
ghost use Rattle.plan_name.specs.LayingOut.{MayGrow, needed_blocks, body_with, PutsMap, IsLonger, if_new, one_of, new_list, past, past_new, AreLowest, IsLaid, LaidWithin, LaysLonger};
ghost use Rattle.stable.specs.Counts.{HasCause};
ghost use Rattle.stable.specs.Looked.{Looked};
ghost use Rattle.v7_layout.specs.Numbers.{field};
ghost use Rattle.v7_strokes.specs.Inodes.{BlocksFit};

use crate::choosing::{Chosen, choose};
use crate::creating_puts::{Listing, Longer};
use byteorder::{ByteOrder, LittleEndian};
use index_sets::FreeSet;
use plan_file::{Places, file_places};
use stable::{Failed, Stable};
use v7_layout::Inode;
use v7_read::empty_sector;
use v7_strokes::Blocks;

/// The blocks that a directory takes: that of its new sector, and its block of addresses.
#[derive(Clone, Copy)]
pub struct NewBlocks {
    pub sector: Option<u32>,
    pub map: Option<u32>,
}

/// A directory that gets longer by a slot: the sector where the slot stands, what the directory gets, and the blocks that it takes.
#[derive(Clone, Copy)]
pub struct Laid {
    pub sector: u32,
    pub longer: Longer,
    pub new: NewBlocks,
}

// The blocks of the sectors of a body, with this one for sector `index`.
fn with_sector(body: &[u32; 138], index: usize, block: u32) -> [u32; 138]
    requires { index < 138 }
    ensures { (l : ℕ) → get_or result l 0 ≡ body_with body.now index block l }
{
    let mut changed = *body;
    changed[index] = block;
    changed
}

// The blocks of the first ten sectors of a body.
fn direct_of(body: &[u32; 138]) -> [u32; 10]
    requires { (k : ℕ) → get_or body.now k 0 < 1048576 }
    ensures direct { (l : ℕ) → l < 10 → get_or result l 0 ≡ get_or body.now l 0 }
    ensures fit { All (λ address. address < 2 ^ 24) result }
{
    let mut direct = [0; 10];
    for index in 0..10 {
        direct[index] = body[index];
    }
    direct
}

// The block with the addresses of all but the first ten sectors of a body.
fn map_block(body: &[u32; 138]) -> [u8; 512]
    ensures long { length result ≡ 512 }
    ensures reads { (k : ℕ) → 10 ≤ k → k < 138 → field result (4 * (k - 10)) 4 ≡ get_or body.now k 0 }
{
    let mut bytes = empty_sector();
    LittleEndian::write_u32_into(&body[10..], &mut bytes);
    bytes
}

// The block of addresses with its new content, where sector `index` is new and reached through it.
fn listing(body: &[u32; 138], index: usize, single: u32, fresh: bool) -> Option<Listing>
    ensures { PutsMap index fresh single (λ l. get_or body.now l 0) result }
{
    if index < 10 {
        return None;
    }
    if !fresh {
        return None;
    }
    let bytes = map_block(body);
    Some(Listing {
        block: single,
        bytes,
    })
}

// What a directory gets whose sector `index` is to stand at a block.
fn longer_by(places: &Places, index: usize, chosen: &Chosen) -> Longer
    requires place { index < 138 }
    requires body { (k : ℕ) → get_or places.now.body k 0 < 1048576 }
    requires fits { (chosen.now.sector < 1048576) × (chosen.now.single < 1048576) }
    ensures longer { IsLonger places.now index chosen.now.sector result }
    ensures through { result.blocks.single ≡ chosen.now.single }
    ensures fits { BlocksFit result.blocks }
{
    let fresh = places.body[index] == 0;
    let body = with_sector(&places.body, index, chosen.sector);
    let map = listing(&body, index, chosen.single, fresh);
    let direct = direct_of(&body);
    Longer {
        fresh,
        map,
        blocks: Blocks {
            direct,
            single: chosen.single,
        },
    }
}

// A block that is another than before.
fn changed(old: u32, new: u32) -> Option<u32>
    ensures { result ≡ if_new old new }
{
    if old == new {
        return None;
    }
    Some(new)
}

// Lays a directory out whose sector `index` is to be held, by its places.
fn lay(blocks: &FreeSet, places: &Places, index: usize, sectors: u32) -> Option<Laid>
    requires place { index < 138 }
    requires within { AreWithin (min sectors 1048576) places.now }
    requires through { AreThrough places.now }
    ensures laid { IfSome result (IsLaid blocks.now places.now index) }
    ensures within { IfSome result (LaidWithin sectors) }
    ensures none { IfNone result (AreSpare sectors blocks.now → count_free blocks.now < needed_blocks places.now index) }
{
    let Some(chosen) = choose(blocks, places, index, sectors) else {
        return None;
    };
    let longer = longer_by(places, index, &chosen);
    let new = NewBlocks {
        sector: changed(places.body[index], chosen.sector),
        map: changed(places.single, chosen.single),
    };
    Some(Laid {
        sector: chosen.sector,
        longer,
        new,
    })
}

/// Lays out where the blocks of a directory are to stand that gets longer by a slot, by its inode: nothing is new where its last sector isn't full; else
/// it takes the lowest free block, and with its eleventh sector the next one for its block of addresses. None where too few are free, the directory is
/// too long already, or no volume of the store can have them free; on a volume with nothing to mend that may get longer, never, and past those that are
/// new no more are missing than `added_blocks` tells. Reads at most one sector; nothing is taken.
pub fn lay_out<S: Stable>(
    store: &mut S,
    blocks: &FreeSet,
    inode: &Inode,
) -> Result<Option<Laid>, Failed>
    ensures lays { S.tells → (d : ℕ) (inodes : List Bool) → MayGrow (S.image store.old) d inode.now blocks.now inodes → IfOk result (λ r. IsSomeAnd r (LaysLonger (S.image store.old) d (inode.now.size / 16))) }
    ensures left { S.tells → (d : ℕ) (inodes : List Bool) → MayGrow (S.image store.old) d inode.now blocks.now inodes → IfOk result (λ r. IfSome r (λ laid. count_free blocks.now ≤ count_from blocks.now (past_new laid.new) + added_blocks inode.now.size)) }
    ensures lowest { IfOk result (λ r. IfSome r (AreLowest blocks.now)) }
    ensures within { IfOk result (λ r. IfSome r (LaidWithin (S.sector_count store.old))) }
    ensures cause { HasCause (S.faults store.old) (S.faults store.new) result }
    ensures looked { Looked S.Stable store.old store.new }
{
    let places = file_places(store, inode)?;
    let index = inode.size / 16 / 32;
    if index >= 138 {
        return Ok(None);
    }
    Ok(lay(blocks, &places, index as usize, store.sectors()))
}

// One past a block, 0 where there is none. The greatest number, which no block has, stays.
fn past(block: Option<u32>) -> u32
    ensures { IfSome block (λ a. a + 1 < 2 ^ 32) → result ≡ past block }
{
    match block {
        Some(number) => number.saturating_add(1),
        None => 0,
    }
}

/// One past the new blocks of a directory, 0 where none is new: from there on all free blocks are still free.
pub fn past_new(new: &NewBlocks) -> u32
    ensures { IfSome new.now.sector (λ a. a + 1 < 2 ^ 32) → IfSome new.now.map (λ a. a + 1 < 2 ^ 32) → result ≡ past_new new.now }
{
    past(new.sector).max(past(new.map))
}

// Takes a block, if there is one.
fn take_one(blocks: &mut FreeSet, block: Option<u32>)
    ensures { blocks.new ≡ taken (one_of block) blocks.old }
{
    match block {
        Some(number) => blocks.take(number),
        None => {}
    }
}

/// Takes the new blocks of a directory out of the set of free ones.
pub fn take_new(blocks: &mut FreeSet, new: &NewBlocks)
    ensures { blocks.new ≡ taken (new_list new.now) blocks.old }
{
    take_one(blocks, new.sector);
    take_one(blocks, new.map);
}
