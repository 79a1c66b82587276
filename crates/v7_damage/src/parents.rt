// The parents of directories.

ghost use Rattle.std.specs.Prelude.{◌≡◌, ◌≢◌, ◌<◌, ◌≤◌, ℕ, ◌+◌, length, map, true, get_or, ◌||◌, ◌&&◌, ◌==◌, [], ◌∷◌};
ghost use Rattle.v7_map.specs.Damage.{is_entry};
ghost use Rattle.v7_map.specs.Tree.{Tree, number_in};
ghost use Rattle.v7_damage.specs.Marks.{mark_at};
ghost use Rattle.v7_damage.specs.Names.{AreDotted, begins_with_dots};
ghost use Rattle.v7_damage.specs.Slots.{names, seen_slot};

use crate::marks::Marks;
use v7_layout::Slot;

/// The directories that their parents hold, and those that begin with `.` and `..`.
#[derive(Drop)]
pub(crate) struct Parents {
    pub(crate) held: Marks,
    pub(crate) dotted: Marks,
}

// Marks a directory as held where its `..` leads to this parent.
fn hold_one(ino: u16, parent: u16, ups: &[u16], held: &mut Marks)
    requires long { length ups.now ≡ length held.old }
    requires some { 1 ≤ parent }
    ensures marks { (i : ℕ) → mark_at held.new i ≡ (mark_at held.old i || ((get_or ups.now i 0 == parent) && (ino == i))) }
    ensures length { length held.new ≡ length held.old }
{
    let index = ino as usize;
    if index >= ups.len() {
        return;
    }
    if ups[index] != parent {
        return;
    }
    held.mark(ino as u32);
}

/// Marks the directories that these slots name and whose `..` leads to this parent.
pub(crate) fn hold_named(slots: &[Slot], parent: u16, ups: &[u16], held: &mut Marks)
    requires long { length ups.now ≡ length held.old }
    requires some { 1 ≤ parent }
    ensures marks { (i : ℕ) → i ≢ 0 → mark_at held.new i ≡ (mark_at held.old i || ((get_or ups.now i 0 == parent) && names slots.now i)) }
    ensures length { length held.new ≡ length held.old }
{
    for slot in slots {
        hold_one(slot.ino, parent, ups, held);
    }
}

// The slot is `.` of this directory.
fn is_dot(slot: &Slot, ino: u16) -> bool
    ensures { ino ≢ 0 → result ≡ is_entry ino (46 ∷ []) (seen_slot slot.now) }
{
    slot.name[0] == b'.' && slot.name[1] == 0 && slot.ino == ino
}

// The slot is `..`.
fn is_dot_dot(slot: &Slot) -> bool
    ensures { result ≡ is_entry (number_in (seen_slot slot.now)) (46 ∷ 46 ∷ []) (seen_slot slot.now) }
{
    slot.ino != 0 && slot.name[0] == b'.' && slot.name[1] == b'.' && slot.name[2] == 0
}

// Whether a directory begins with `.` and `..`.
pub(crate) fn begins_with_dots(ino: u16, slots: &[Slot]) -> bool
    requires { 1 ≤ ino }
    ensures { (t : Tree) → map seen_slot slots.now ≡ t.slots ino → result ≡ begins_with_dots t ino }
{
    if slots.len() < 2 {
        return false;
    }
    is_dot(&slots[0], ino) && is_dot_dot(&slots[1])
}

/// Marks a directory if it begins with `.` and `..`.
pub(crate) fn note_dots(ino: u16, slots: &[Slot], dotted: &mut Marks)
    requires some { 1 ≤ ino }
    requires within { ino < length dotted.old }
    ensures dotted { (t : Tree) → map seen_slot slots.now ≡ t.slots ino → AreDotted t dotted.old ino → AreDotted t dotted.new (ino + 1) }
    ensures length { length dotted.new ≡ length dotted.old }
{
    if begins_with_dots(ino, slots) {
        dotted.mark(ino as u32);
    }
}
