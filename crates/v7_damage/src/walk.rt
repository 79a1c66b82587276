// The walk through the directories.

ghost use Rattle.std.specs.Prelude.{◌≡◌, ◌<◌, ◌≤◌, ℕ, length, map, take, get_or, ◌||◌, ◌&&◌, ◌==◌, OnOk, IfOk, IsErrOf};
ghost use Rattle.stable.specs.Counts.{Rose};
ghost use Rattle.stable.specs.Looked.{Looked};
ghost use Rattle.v7_map.specs.Image.{inode_sector};
ghost use Rattle.v7_map.specs.Frame.{frame};
ghost use Rattle.v7_map.specs.Tree.{Tree, tree};
ghost use Rattle.v7_map.specs.Weak.{parent};
ghost use Rattle.v7_damage.specs.Marks.{mark_at};
ghost use Rattle.v7_damage.specs.Slots.{names, seen_slot};
ghost use Rattle.v7_damage.specs.Walk.{AreListed, AreWalked, CanWalk, is_dir_in};
ghost use Rattle.v7_damage.specs.Names.{AreTypes};
ghost use Rattle.v7_damage.specs.Tables.{HasTables};
ghost use Rattle.v7_damage.specs.Tallied.{HasTally, HasTallyRoom};
ghost use Rattle.v7_damage.specs.Tests.{NotDamaged};
ghost use Rattle.v7_damage.specs.declared.damage.RepairFault.TheVariants as fault;

use crate::bodies::Bodies;
use crate::damage::RepairFault;
use crate::marks::Marks;
use crate::slots::read_directory;
use crate::tally::{Tally, note_read};
use stable::{NoMemory, Stable};
use std::alloc::Global;
use v7_layout::Slot;

/// The i-number of the root (filsys(5)).
const ROOT: u16 = 2;

/// How many slots a directory has at most.
const MOST_SLOTS: usize = 4416;

/// The type of a directory in the four highest bits of a mode.
const DIRECTORY: u8 = 4;

/// The walked directories, and where `..` of each leads, by i-number.
#[derive(Drop)]
pub(crate) struct Walks {
    pub(crate) found: Marks,
    pub(crate) ups: Vec<u16>,
}

// Puts one number at the end of the list, if it is that of a directory that isn't there yet.
fn find_one(ino: u16, types: &[u8], found: &mut Marks, list: &mut Vec<u16>) -> Result<(), NoMemory>
    requires sizes { length types.now ≡ length found.old }
    ensures marks { OnOk result ((i : ℕ) → mark_at found.new i ≡ (mark_at found.old i || (is_dir_in types.now i && (ino == i)))) }
    ensures listed { AreListed found.old list.old.items → OnOk result (AreListed found.new list.new.items) }
    ensures front { OnOk result (take (length list.old.items) list.new.items ≡ list.old.items) }
    ensures longer { OnOk result (length list.old.items ≤ length list.new.items) }
    ensures length { length found.new ≡ length found.old }
{
    let index = ino as usize;
    if index >= types.len() {
        return Ok(());
    }
    if types[index] != DIRECTORY || found.has(ino as u32) {
        return Ok(());
    }
    list.push(ino)?;
    found.mark(ino as u32);
    Ok(())
}

// Puts the directories that these slots name at the end of the list, but those that are there already.
fn find_named(
    slots: &[Slot],
    types: &[u8],
    found: &mut Marks,
    list: &mut Vec<u16>,
) -> Result<(), NoMemory>
    requires sizes { length types.now ≡ length found.old }
    requires none { get_or types.now 0 0 ≡ 0 }
    ensures marks { OnOk result ((i : ℕ) → mark_at found.new i ≡ (mark_at found.old i || (is_dir_in types.now i && names slots.now i))) }
    ensures listed { AreListed found.old list.old.items → OnOk result (AreListed found.new list.new.items) }
    ensures front { OnOk result (take (length list.old.items) list.new.items ≡ list.old.items) }
    ensures longer { OnOk result (length list.old.items ≤ length list.new.items) }
    ensures length { length found.new ≡ length found.old }
{
    for slot in slots {
        find_one(slot.ino, types, found, list)?;
    }
    Ok(())
}

// Where `..` leads, 0 where there is none.
fn up_of(slots: &[Slot]) -> u16
    ensures { (t : Tree) (d : ℕ) → map seen_slot slots.now ≡ t.slots d → result ≡ parent t d }
{
    if slots.len() < 2 {
        return 0;
    }
    slots[1].ino
}

/// A mark for each directory that is walked: the root, and those that a slot of a walked one names. Where `..` of each leads is put into `ups`, and
/// each is noted in `tally`. Each is read once. Nothing is changed.
pub(crate) fn walk<S: Stable>(
    alloc: Global,
    store: &mut S,
    types: &[u8],
    bodies: &Bodies,
    ups: &mut Vec<u16>,
    tally: &mut Tally,
) -> Result<Marks, RepairFault>
    requires tables { HasTables (length types.now) types.now bodies.now }
    requires few { length types.now ≤ 65536 }
    requires stand { (i : ℕ) → i < length types.now → inode_sector i < S.sector_count store.old }
    requires ups { length ups.old.items ≡ length types.now }
    requires room { HasTallyRoom (length types.now) tally.old }
    ensures walked { S.tells → CanWalk (S.image store.old) types.now bodies.now → IfOk result (λ found. AreWalked (tree (frame (S.image store.old))) found ups.new.items) }
    ensures tally { S.tells → AreTypes (frame (S.image store.old)) types.now → CanWalk (S.image store.old) types.now bodies.now → HasTally (frame (S.image store.old)) types.now tally.old → HasTally (frame (S.image store.old)) types.now tally.new }
    ensures room { HasTallyRoom (length types.now) tally.new }
    ensures ups_length { length ups.new.items ≡ length ups.old.items }
    ensures length { IfOk result (λ found. length found ≡ length types.now) }
    ensures undamaged { NotDamaged result }
    ensures cause { IsErrOf result fault.Failed → Rose (S.faults store.old) (S.faults store.new) }
    ensures looked { Looked S.Stable store.old store.new }
{
    let mut found = Marks::new(alloc, types.len() as u32)?;
    let mut list = Vec::with_capacity(alloc, types.len())?;
    let mut slots = Vec::with_capacity(alloc, MOST_SLOTS)?;
    find_one(ROOT, types, &mut found, &mut list)?;
    let mut next = 0;
    'walking: while next < list.len() {
        let ino = list[next];
        let _sectors = read_directory(store, bodies, ino, &mut slots)?;
        find_named(&slots, types, &mut found, &mut list)?;
        ups[ino as usize] = up_of(&slots);
        note_read(tally, ino, &slots, types);
        next += 1;
    }
    Ok(found)
}
