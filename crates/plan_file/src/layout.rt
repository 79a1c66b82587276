// Where the blocks of a file are to stand after a batch.

ghost use Rattle.std.specs.Prelude.{◌≡◌, ◌≤◌, ◌<◌, ◌+◌, true, false, ◌&&◌, ◌==◌, ℕ};
ghost use Rattle.files_model.specs.Batch.{one_if};
ghost use Rattle.index_sets.specs.Free.{is_free, count_free};
ghost use Rattle.plan_file.specs.Free.{count_from, AreSpare};
ghost use Rattle.plan_file.specs.Layout.{is_new, new_from, ArePlaced, AreLaidOut};
ghost use Rattle.plan_file.specs.Started.{AreTaken, AreAllTaken};

use crate::places::Places;
use index_sets::FreeSet;

// Whether a store of so many sectors, and an inode of three bytes an address, can have the blocks of a set, all past the super-block.
fn is_spare(blocks: &FreeSet, sectors: u32) -> bool
    ensures yes { result ≡ true → AreSpare sectors blocks.now }
    ensures no { result ≡ false → AreSpare sectors blocks.now → ⊥ }
{
    if blocks.lowest_from(sectors.min(1_048_576)).is_some() {
        return false;
    }
    match blocks.lowest_from(0) {
        Some(lowest) => lowest >= 2,
        None => true,
    }
}

/// How many blocks of a set a plan may take on a store of so many sectors: all of them, or none where it has one that no volume can have free.
pub fn spare_blocks(blocks: &FreeSet, sectors: u32) -> u32
    ensures all { AreSpare sectors blocks.now → result ≡ count_free blocks.now }
    ensures some { 0 < result → AreSpare sectors blocks.now }
    ensures few { result ≤ count_free blocks.now }
{
    if !is_spare(blocks, sectors) {
        return 0;
    }
    blocks.count()
}

// The next free block from a number on.
fn next_block(blocks: &FreeSet, from: u32) -> u32
    requires { 0 < count_from blocks.now from }
    ensures low { from ≤ result }
    ensures there { is_free blocks.now result ≡ true }
    ensures next { count_from blocks.now from ≡ count_from blocks.now (result + 1) + 1 }
{
    match blocks.lowest_from(from) {
        Some(number) => number,
        None => unreachable!(),
    }
}

/// The blocks of the sectors of a file, and a number above those that are new.
#[derive(Clone, Copy)]
struct PlacedBody {
    body: [u32; 138],
    from: u32,
}

// Whether a sector takes a block.
fn takes_block(body: &[u32; 138], held: &[bool; 138], index: usize) -> bool
    requires { index < 138 }
    ensures { result ≡ is_new body.now held.now index }
{
    held[index] && body[index] == 0
}

// Gives the sectors that are held and have no block the lowest free ones, in rising order.
fn place_body(blocks: &FreeSet, body: &[u32; 138], held: &[bool; 138]) -> PlacedBody
    requires room { new_from body.now held.now 0 ≤ count_from blocks.now 0 }
    requires small { 0 < new_from body.now held.now 0 → (a : ℕ) → is_free blocks.now a ≡ true → a < 1048576 }
    ensures { ArePlaced blocks.now body.now held.now result.body 138 result.from }
{
    let mut placed = *body;
    let mut from = 0;
    for index in 0..138 {
        if !takes_block(body, held, index) {
            continue;
        }
        let number = next_block(blocks, from);
        placed[index] = number;
        from = number + 1;
    }
    PlacedBody { body: placed, from }
}

/// Where the blocks of a file are to stand, of which these sectors are to be held, and a block of addresses if `mapped`. New blocks are the lowest
/// free ones.
pub fn lay_out(blocks: &FreeSet, places: &Places, held: &[bool; 138], mapped: bool) -> Places
    requires room { new_from places.now.body held.now 0 + one_if (mapped && (places.now.single == 0)) ≤ count_from blocks.now 0 }
    requires small { 0 < new_from places.now.body held.now 0 + one_if (mapped && (places.now.single == 0)) → (a : ℕ) → is_free blocks.now a ≡ true → a < 1048576 }
    ensures { AreLaidOut blocks.now places.now held.now mapped result }
{
    let placed = place_body(blocks, &places.body, held);
    let body = placed.body;
    if places.single != 0 || !mapped {
        return Places {
            body,
            single: places.single,
        };
    }
    let single = next_block(blocks, placed.from);
    Places { body, single }
}

// Takes the new blocks of a file's sectors out of a set.
fn take_body(blocks: &mut FreeSet, body: &[u32; 138], held: &[bool; 138], target: &[u32; 138])
    ensures { AreTaken blocks.old body.now held.now target.now 138 blocks.new }
{
    for index in 0..138 {
        if !takes_block(body, held, index) {
            continue;
        }
        blocks.take(target[index]);
    }
}

/// Takes the new blocks of a file out of the set that they were laid out from.
pub fn take_new(blocks: &mut FreeSet, old: &Places, held: &[bool; 138], mapped: bool, new: &Places)
    ensures { AreAllTaken blocks.old old.now held.now mapped new.now blocks.new }
{
    take_body(blocks, &old.body, held, &new.body);
    if old.single == 0 && mapped {
        blocks.take(new.single);
    }
}
