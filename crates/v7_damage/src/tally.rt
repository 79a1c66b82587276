// What one reading of the walked directories tells, in whatever order they are read.

ghost use Rattle.std.specs.Prelude.{◌≡◌, ◌≢◌, ◌==◌, ◌<◌, ◌≤◌, ◌-◌, ℕ, List, length, map, true, get_or, None, IfOk, if◌then◌else◌};
ghost use Rattle.v7_map.specs.Frame.{Frame, frame};
ghost use Rattle.v7_map.specs.Tree.{tree};
ghost use Rattle.stable.specs.Store.{Image};
ghost use Rattle.v7_damage.specs.Names.{AreCounts, AreTypes, slots_until, tests_of_directories};
ghost use Rattle.v7_damage.specs.Slots.{names, seen_slot};
ghost use Rattle.v7_damage.specs.Tallied.{HasRead, HasTally, HasTallyRoom, IsCovered, IsNoTally};
ghost use Rattle.v7_damage.specs.Tests.{first_failing};
ghost use Rattle.v7_damage.specs.Walk.{AreWalked};

use crate::marks::Marks;
use crate::names::{Kept, test_slots};
use crate::parents::begins_with_dots;
use crate::walk::Walks;
use stable::NoMemory;
use std::alloc::Global;
use v7_layout::Slot;

/// The i-number of the root (filsys(5)).
const ROOT: u32 = 2;

/// What was noted of the directories that were read.
#[derive(Drop)]
pub(crate) struct Tally {
    /// The directories that were read.
    pub(crate) read: Marks,
    /// How many of their slots name each i-number, and which directories those past the first two name.
    pub(crate) kept: Kept,
    /// A directory that was read and has a slot past its first two for this i-number, 0 where none has.
    pub(crate) holders: Vec<u16>,
    /// Each of them begins with `.` and `..`, and no slot is wrong.
    pub(crate) fine: bool,
}

/// No directory was read yet.
pub(crate) fn no_tally(alloc: Global, size: usize) -> Result<Tally, NoMemory>
    requires { size ≤ 65536 }
    ensures { IfOk result (IsNoTally size) }
{
    let kept = Kept {
        counts: vec![in alloc; 0; size]?,
        named: Marks::new(alloc, size as u32)?,
        wrong: None,
    };
    Ok(Tally {
        read: Marks::new(alloc, size as u32)?,
        kept,
        holders: vec![in alloc; 0; size]?,
        fine: true,
    })
}

// Notes that this directory holds an i-number.
fn note_holder(ino: u16, holder: u16, holders: &mut Vec<u16>)
    ensures each { (i : ℕ) → i < length holders.old.items → get_or holders.new.items i 0 ≡ (if i == ino then holder else get_or holders.old.items i 0) }
    ensures length { length holders.new.items ≡ length holders.old.items }
{
    let index = ino as usize;
    if index < holders.len() {
        holders[index] = holder;
    }
}

// Notes that this directory holds what these slots name.
fn note_holders(slots: &[Slot], holder: u16, holders: &mut Vec<u16>)
    ensures each { (i : ℕ) → i ≢ 0 → i < length holders.old.items → get_or holders.new.items i 0 ≡ (if names slots.now i then holder else get_or holders.old.items i 0) }
    ensures length { length holders.new.items ≡ length holders.old.items }
{
    for slot in slots {
        note_holder(slot.ino, holder, holders);
    }
}

// Notes one directory. It is one that wasn't read before, begins with `.` and `..`, and has no slot that is wrong.
fn is_noted(tally: &mut Tally, ino: u16, slots: &[Slot], types: &[u8]) -> bool
    requires some { 1 ≤ ino }
    requires within { ino < length types.now }
    requires room { HasTallyRoom (length types.now) tally.old }
    ensures read { (f : Frame) → AreTypes f types.now → map seen_slot slots.now ≡ f.slots ino → HasRead f types.now tally.old → result ≡ true → HasRead f types.now tally.new }
    ensures room { HasTallyRoom (length types.now) tally.new }
{
    if tally.read.has(ino as u32) {
        return false;
    }
    if !begins_with_dots(ino, slots) {
        return false;
    }
    if test_slots(slots, types, &mut tally.kept).is_some() {
        return false;
    }
    let first = slots.len().min(2);
    note_holders(&slots[first..], ino, &mut tally.holders);
    tally.read.mark(ino as u32);
    true
}

/// Notes a directory with these slots, if all was fine before.
pub(crate) fn note_read(tally: &mut Tally, ino: u16, slots: &[Slot], types: &[u8])
    requires some { 1 ≤ ino }
    requires within { ino < length types.now }
    requires room { HasTallyRoom (length types.now) tally.old }
    ensures read { (f : Frame) → AreTypes f types.now → map seen_slot slots.now ≡ f.slots ino → HasTally f types.now tally.old → HasTally f types.now tally.new }
    ensures room { HasTallyRoom (length types.now) tally.new }
{
    if !tally.fine {
        return;
    }
    let fine = is_noted(tally, ino, slots, types);
    tally.fine = fine;
}

// Whether an i-number that is walked was read, and the directory where its `..` leads holds it.
fn is_covered(ino: u32, walks: &Walks, tally: &Tally) -> bool
    requires ups { ino < length walks.now.ups.items }
    requires holders { ino < length tally.now.holders.items }
    ensures { result ≡ true → IsCovered walks.now tally.now ino }
{
    let walked = walks.found.has(ino);
    if walked != tally.read.has(ino) {
        return false;
    }
    if !walked {
        return true;
    }
    let up = walks.ups[ino as usize];
    if ino == ROOT {
        return up == 2;
    }
    up != 0 && tally.holders[ino as usize] == up
}

/// Whether each test of the walked directories passes, by one reading of all of them. Where it is false, one may fail.
pub(crate) fn all_pass(walks: &Walks, tally: &Tally) -> bool
    requires few { length walks.now.ups.items ≤ 65536 }
    requires found { length walks.now.found ≡ length walks.now.ups.items }
    requires room { HasTallyRoom (length walks.now.ups.items) tally.now }
    ensures pass { (image : Image) (types : List ℕ) → length types ≡ length walks.now.ups.items → AreTypes (frame image) types → AreWalked (tree (frame image)) walks.now.found walks.now.ups.items → HasTally (frame image) types tally.now
        → result ≡ true → first_failing (frame image) (tests_of_directories (tree (frame image)) 1 (length types - 1)) ≡ None }
    ensures counted { (image : Image) (types : List ℕ) → length types ≡ length walks.now.ups.items → AreWalked (tree (frame image)) walks.now.found walks.now.ups.items → HasTally (frame image) types tally.now
        → result ≡ true → AreCounts tally.now.kept.counts.items (slots_until (tree (frame image)) 0 (length types) 0) }
{
    if !tally.fine {
        return false;
    }
    for ino in 0..walks.ups.len() {
        if !is_covered(ino as u32, walks, tally) {
            return false;
        }
    }
    true
}
