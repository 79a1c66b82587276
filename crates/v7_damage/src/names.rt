// The tests of the slots of a directory.

ghost use Rattle.std.specs.Prelude.{◌≡◌, ◌<◌, ◌≤◌, ℕ, ◌+◌, ◌++◌, ◌∷◌, [], length, map, drop, get_or, true, List, Some, None, IfSome};
ghost use Rattle.files_model.specs.Files.{Slot as Seen};
ghost use Rattle.std.specs.Option.{option_map};
ghost use Rattle.v7_map.specs.Frame.{Frame};
ghost use Rattle.v7_map.specs.Weak.{slot_at};
ghost use Rattle.v7_map.specs.Tree.{tree, is_walked};
ghost use Rattle.v7_map.specs.Damage.{Entry, is_only_child};
ghost use Rattle.v7_damage.specs.Names.{AreTypes, AreNamed, HasKept, HasTested, slot_passes, slots_until, tests_of_slots};
ghost use Rattle.v7_damage.specs.Tests.{first_failing};
ghost use Rattle.v7_damage.specs.Slots.{seen_slot};
ghost use Rattle.v7_damage.specs.Tables.{AreSectors};
ghost use Rattle.v7_damage.specs.Tallied.{AreOnce, AreTallied, is_good, past_more};

use crate::bodies::{Bodies, Sectors, block_of};
use crate::marks::Marks;
use v7_layout::Slot;

/// The type of a directory in the four highest bits of a mode.
const DIRECTORY: u8 = 4;

/// The i-number of the root (filsys(5)).
const ROOT: u16 = 2;

/// How many slots may name a file.
const MOST_LINKS: u16 = 65_535;

/// A slot of a directory that fails its test.
#[derive(Clone, Copy)]
pub(crate) struct WrongSlot {
    pub(crate) ino: u16,
    pub(crate) index: usize,
    /// Where it stands.
    pub(crate) sector: u32,
}

/// What is kept of the slots that passed their tests, and the first that failed.
#[derive(Drop)]
pub(crate) struct Kept {
    /// How many slots name each i-number.
    pub(crate) counts: Vec<u16>,
    /// The directories that a slot past the first two names.
    pub(crate) named: Marks,
    pub(crate) wrong: Option<WrongSlot>,
}

// Whether slot `index` of a directory is the only one past the first two that names this directory,
// so far. It is marked as named from then on.
fn take_child(ino: u16, index: usize, types: &[u8], kept: &mut Kept) -> bool
    requires long { length kept.old.named ≡ length types.now }
    requires within { ino < length types.now }
    ensures only { (f : Frame) (d : ℕ) → AreTypes f types.now → AreNamed types.now kept.old.named (slots_until (tree f) 2 d index) → result ≡ is_only_child (tree f) d index ino }
    ensures kept { (f : Frame) (d : ℕ) (name : List ℕ) → AreNamed types.now kept.old.named (slots_until (tree f) 2 d index) → index < length (f.slots d) → slot_at (tree f) d index ≡ Some (ino, name)
        → result ≡ true → AreNamed types.now kept.new.named (slots_until (tree f) 2 d (index + 1)) }
    ensures once { (name : List ℕ) (past : List Seen) → AreOnce types.now kept.old.named past → result ≡ true → AreOnce types.now kept.new.named (past_more index past (Some (ino, name))) }
    ensures length { length kept.new.named ≡ length kept.old.named }
    ensures counts { kept.new.counts.items ≡ kept.old.counts.items }
    ensures wrong { kept.new.wrong ≡ kept.old.wrong }
{
    if index < 2 {
        return true;
    }
    if types[ino as usize] != DIRECTORY {
        return true;
    }
    if ino == ROOT {
        return false;
    }
    if kept.named.has(ino as u32) {
        return false;
    }
    kept.named.mark(ino as u32);
    true
}

// Whether slot `index` of a directory is empty or passes its test. It is counted from then on.
fn test_slot(slot: &Slot, index: usize, types: &[u8], kept: &mut Kept) -> bool
    requires counts { length kept.old.counts.items ≡ length types.now }
    requires named { length kept.old.named ≡ length types.now }
    ensures passes { (f : Frame) (d : ℕ) → HasKept f types.now kept.old.counts.items kept.old.named d index → slot_at (tree f) d index ≡ seen_slot slot.now → result ≡ slot_passes f d index }
    ensures kept { (f : Frame) (d : ℕ) → HasKept f types.now kept.old.counts.items kept.old.named d index → slot_at (tree f) d index ≡ seen_slot slot.now → index < length (f.slots d)
        → result ≡ true → HasKept f types.now kept.new.counts.items kept.new.named d (index + 1) }
    ensures good { (f : Frame) → AreTypes f types.now → result ≡ true → is_good f (seen_slot slot.now) ≡ true }
    ensures tallied { (all past : List Seen) → AreTallied types.now kept.old.counts.items kept.old.named all past → result ≡ true
        → AreTallied types.now kept.new.counts.items kept.new.named (all ++ seen_slot slot.now ∷ []) (past_more index past (seen_slot slot.now)) }
    ensures counts { length kept.new.counts.items ≡ length kept.old.counts.items }
    ensures named { length kept.new.named ≡ length kept.old.named }
    ensures wrong { kept.new.wrong ≡ kept.old.wrong }
{
    if slot.ino == 0 {
        return true;
    }
    let ino = slot.ino as usize;
    if ino >= types.len() {
        return false;
    }
    if types[ino] == 0 {
        return false;
    }
    if slot.name[0] == 0 {
        return false;
    }
    let count = kept.counts[ino];
    if count == MOST_LINKS {
        return false;
    }
    if !take_child(slot.ino, index, types, kept) {
        return false;
    }
    kept.counts[ino] = count + 1;
    true
}

// The first slot of a directory that fails its test. Those before it are counted from then on.
pub(crate) fn test_slots(slots: &[Slot], types: &[u8], kept: &mut Kept) -> Option<usize>
    requires counts { length kept.old.counts.items ≡ length types.now }
    requires named { length kept.old.named ≡ length types.now }
    ensures told { (f : Frame) (d : ℕ) → HasKept f types.now kept.old.counts.items kept.old.named d 0 → map seen_slot slots.now ≡ f.slots d
        → first_failing f (tests_of_slots (tree f) d 0 (length slots.now)) ≡ option_map (λ k. Entry d k) result }
    ensures kept { (f : Frame) (d : ℕ) → HasKept f types.now kept.old.counts.items kept.old.named d 0 → map seen_slot slots.now ≡ f.slots d
        → result ≡ None → HasKept f types.now kept.new.counts.items kept.new.named d (length slots.now) }
    ensures good { (f : Frame) → AreTypes f types.now → result ≡ None → (k : ℕ) → k < length slots.now → is_good f (get_or (map seen_slot slots.now) k None) ≡ true }
    ensures tallied { (all past : List Seen) → AreTallied types.now kept.old.counts.items kept.old.named all past → result ≡ None
        → AreTallied types.now kept.new.counts.items kept.new.named (all ++ map seen_slot slots.now) (past ++ drop 2 (map seen_slot slots.now)) }
    ensures within { IfSome result (λ k. k < length slots.now) }
    ensures counts { length kept.new.counts.items ≡ length kept.old.counts.items }
    ensures named { length kept.new.named ≡ length kept.old.named }
    ensures wrong { kept.new.wrong ≡ kept.old.wrong }
{
    for index in 0..slots.len() {
        if !test_slot(&slots[index], index, types, kept) {
            return Some(index);
        }
    }
    None
}

/// Tests the slots of a walked directory, if no slot was wrong before. They are counted from then on, or the first wrong one is kept.
pub(crate) fn keep_slots(
    slots: &[Slot],
    ino: u16,
    bodies: &Bodies,
    sectors: &Sectors,
    types: &[u8],
    kept: &mut Kept,
)
    requires counts { length kept.old.counts.items ≡ length types.now }
    requires named { length kept.old.named ≡ length types.now }
    requires some { 1 ≤ ino }
    ensures tested { (f : Frame) → map seen_slot slots.now ≡ f.slots ino → AreSectors f bodies.now sectors.now ino → is_walked (tree f) ino ≡ true → HasTested f types.now kept.old ino → HasTested f types.now kept.new (ino + 1) }
    ensures counts { length kept.new.counts.items ≡ length kept.old.counts.items }
    ensures named { length kept.new.named ≡ length kept.old.named }
{
    if kept.wrong.is_some() {
        return;
    }
    match test_slots(slots, types, kept) {
        None => {}
        Some(index) => {
            let sector = block_of(bodies, sectors, index / 32);
            kept.wrong = Some(WrongSlot { ino, index, sector });
        }
    }
}
