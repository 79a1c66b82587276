// Whether a RENAME may be done, and what is to change.

ghost use Rattle.std.specs.Prelude.{◌≡◌, ◌≢◌, ◌<◌, ◌≤◌, ℕ, List, Some, IfOk};
ghost use Rattle.name_places.specs.Places.{IsFreeAt, IsFreeAtEnd, IsTakenBy};
ghost use Rattle.plan_name.specs.Creations.{FitsSlot};
ghost use Rattle.plan_rename.specs.Found.{AreFound, FindsOld, EndsWithin, OldWithin, call_of, told_of};
ghost use Rattle.plan_rename.specs.Renames.{JudgesRename, JudgedWithin};
ghost use Rattle.stable.specs.Counts.{HasCause};
ghost use Rattle.stable.specs.Looked.{Looked};
ghost use Rattle.stable.specs.Store.{Image};
ghost use Rattle.v7_map.specs.Frame.{frame};
ghost use Rattle.v7_map.specs.View.{node_at};
ghost use Rattle.v7_map.specs.Weak.{IsStrong};
ghost use Rattle.v7_sets.specs.Sets.{AreSetsOf};
ghost use Rattle.v7_strokes.specs.Over.{slot_from};

use crate::refusals::{Told, names_refusal, rename_refusal};
use files_model::{Cred, FileId, Kind, Name, Stat};
use name_places::{NamePlace, find_place};
use plan_name::Spot;
use rename_puts::{Lost, Moved, SlotPlace};
use stable::{Failed, Stable};
use v7_entries::{NamedSlot, read_inode};
use v7_layout::{Inode, Slot};
use v7_map::{attributes_of, kind_of};
use v7_read::Found;
use v7_sets::Sets;
use v7_strokes::slot_of;

/// What a RENAME comes to before it is planned.
#[derive(Drop)]
pub(crate) enum Judged {
    /// It is refused so.
    Refused(Stat),
    /// Both names are of one node, so that it is done without a change.
    Unchanged,
    /// This slot gets a new name, in the directory where it stands.
    Names(SlotPlace, Slot),
    /// The name moves into an empty slot of another directory.
    Moves(Moved),
    /// The name moves to a slot that stands, and the node that this one named, of this inode, loses a name.
    Replaces(Moved, Lost, Inode),
    /// The name moves to the end of another directory.
    Lengthens(Growing),
}

/// A name that moves to the end of another directory: the slot that has it, what the new slot is to hold, and the number and the inode of the directory
/// that gets longer.
#[derive(Clone, Copy)]
pub(crate) struct Growing {
    pub(crate) old: SlotPlace,
    pub(crate) slot: Slot,
    pub(crate) to: u32,
    pub(crate) inode: Inode,
}

/// The directories of the old and of the new name, with what their handles find.
#[derive(Drop)]
pub(crate) struct Ends {
    pub(crate) from: FileId,
    pub(crate) from_found: Found,
    pub(crate) to: FileId,
    pub(crate) to_found: Found,
}

/// The slot of the old name, and the inode that it names.
#[derive(Clone, Copy)]
pub(crate) struct OldName {
    pub(crate) slot: NamedSlot,
    pub(crate) inode: Inode,
}

// What is told of a RENAME onto what is of this kind, or onto a free name.
fn told_of(ends: &Ends, old: &OldName, standing: Option<Kind>, at_end: bool) -> Told
    ensures { result ≡ told_of ends.now old.now standing at_end }
{
    Told {
        node: attributes_of(old.slot.ino as u32, &old.inode),
        from: attributes_of(ends.from.ino, &ends.from_found.inode),
        to: attributes_of(ends.to.ino, &ends.to_found.inode),
        same: ends.from.ino == ends.to.ino,
        standing,
        at_end,
    }
}

// Where the old name stands.
fn old_place(ends: &Ends, old: &OldName) -> SlotPlace
    ensures { result ≡ record { directory = ends.now.from.ino; index = old.now.slot.slot; sector = old.now.slot.sector } }
{
    SlotPlace {
        directory: ends.from.ino,
        index: old.slot.slot,
        sector: old.slot.sector,
    }
}

// What the new slot is to hold.
fn new_slot(old: &OldName, new_name: &Name) -> Slot
    requires number { old.now.slot.ino ≢ 0 }
    requires named { FitsSlot new_name.now }
    ensures { slot_from result ≡ Some (old.now.slot.ino, new_name.now) }
{
    slot_of(old.slot.ino, new_name.bytes())
}

// The name moves to this slot of the other directory.
fn moved_to(ends: &Ends, old: &OldName, index: u32, sector: u32, new_name: &Name) -> Moved
    requires number { old.now.slot.ino ≢ 0 }
    requires named { FitsSlot new_name.now }
    ensures old { result.old ≡ record { directory = ends.now.from.ino; index = old.now.slot.slot; sector = old.now.slot.sector } }
    ensures new { result.new ≡ record { directory = ends.now.to.ino; index = index; sector = sector } }
    ensures holds { slot_from result.slot ≡ Some (old.now.slot.ino, new_name.now) }
{
    Moved {
        old: old_place(ends, old),
        new: SlotPlace {
            directory: ends.to.ino,
            index,
            sector,
        },
        slot: new_slot(old, new_name),
    }
}

// Judges a RENAME onto a name that stands, in this slot of the new name's directory.
fn judge_standing<S: Stable>(
    store: &mut S,
    sets: &Sets,
    ends: &Ends,
    old: &OldName,
    slot: &NamedSlot,
    new_name: &Name,
    cred: &Cred,
) -> Result<Judged, Failed>
    requires ends { EndsWithin (S.sector_count store.old) ends.now }
    requires old { OldWithin (S.sector_count store.old) old.now }
    requires slot { (2 ≤ slot.now.sector) × (slot.now.sector < S.sector_count store.old) }
    requires named { FitsSlot new_name.now }
    ensures judged { S.tells → (name : List ℕ) → IsStrong (frame (S.image store.old)) → AreSetsOf (S.image store.old) sets.now.blocks sets.now.inodes → FindsOld (S.image store.old) ends.now name new_name.now old.now → IsTakenBy (S.image store.old) ends.now.to.ino new_name.now (node_at (S.image store.old) ends.now.to.ino) slot.now → (now : ℕ) → IfOk result (JudgesRename (S.image store.old) (call_of ends.now name new_name.now cred.now) now) }
    ensures within { IfOk result (JudgedWithin (S.sector_count store.old)) }
    ensures cause { HasCause (S.faults store.old) (S.faults store.new) result }
    ensures looked { Looked S.Stable store.old store.new }
{
    if slot.ino == old.slot.ino {
        return Ok(Judged::Unchanged);
    }
    let Some(inode) = read_inode(store, slot.ino as u32)? else {
        return Ok(Judged::Refused(Stat::Noent));
    };
    let told = told_of(ends, old, Some(kind_of(inode.mode)), false);
    match rename_refusal(&told, sets.blocks.count(), cred) {
        Some(status) => return Ok(Judged::Refused(status)),
        None => {}
    }
    let lost = Lost {
        node: slot.ino as u32,
        last: inode.nlink == 1,
    };
    let moved = moved_to(ends, old, slot.slot, slot.sector, new_name);
    Ok(Judged::Replaces(moved, lost, inode))
}

// Judges a RENAME to a free name, whose new entry comes in this empty slot of its directory.
fn judge_empty(
    sets: &Sets,
    ends: &Ends,
    old: &OldName,
    spot: &Spot,
    new_name: &Name,
    cred: &Cred,
) -> Judged
    requires number { old.now.slot.ino ≢ 0 }
    requires named { FitsSlot new_name.now }
    ensures judged { (image : Image) (name : List ℕ) → IsStrong (frame image) → AreSetsOf image sets.now.blocks sets.now.inodes → FindsOld image ends.now name new_name.now old.now → IsFreeAt image ends.now.to new_name.now (node_at image ends.now.to.ino) spot.now → (now : ℕ) → JudgesRename image (call_of ends.now name new_name.now cred.now) now result }
    ensures within { (sectors : ℕ) → EndsWithin sectors ends.now → OldWithin sectors old.now → 2 ≤ spot.now.sector → spot.now.sector < sectors → JudgedWithin sectors result }
{
    let told = told_of(ends, old, None, false);
    match rename_refusal(&told, sets.blocks.count(), cred) {
        Some(status) => return Judged::Refused(status),
        None => {}
    }
    let moved = moved_to(ends, old, spot.index, spot.sector, new_name);
    if told.same {
        return Judged::Names(moved.old, moved.slot);
    }
    Judged::Moves(moved)
}

// Judges a RENAME to a free name whose directory has no empty slot.
fn judge_end(sets: &Sets, ends: &Ends, old: &OldName, new_name: &Name, cred: &Cred) -> Judged
    requires number { old.now.slot.ino ≢ 0 }
    requires named { FitsSlot new_name.now }
    ensures judged { (image : Image) (name : List ℕ) → IsStrong (frame image) → AreSetsOf image sets.now.blocks sets.now.inodes → FindsOld image ends.now name new_name.now old.now → IsFreeAtEnd new_name.now (node_at image ends.now.to.ino) → (now : ℕ) → JudgesRename image (call_of ends.now name new_name.now cred.now) now result }
    ensures within { (sectors : ℕ) → EndsWithin sectors ends.now → OldWithin sectors old.now → JudgedWithin sectors result }
{
    let told = told_of(ends, old, None, true);
    match rename_refusal(&told, sets.blocks.count(), cred) {
        Some(status) => return Judged::Refused(status),
        None => {}
    }
    let place = old_place(ends, old);
    let slot = new_slot(old, new_name);
    if told.same {
        return Judged::Names(place, slot);
    }
    Judged::Lengthens(Growing {
        old: place,
        slot,
        to: ends.to.ino,
        inode: ends.to_found.inode,
    })
}

// Judges a RENAME whose old name is found.
fn judge_found<S: Stable>(
    store: &mut S,
    sets: &Sets,
    ends: &Ends,
    old: &OldName,
    new_name: &Name,
    cred: &Cred,
) -> Result<Judged, Failed>
    requires ends { EndsWithin (S.sector_count store.old) ends.now }
    requires old { OldWithin (S.sector_count store.old) old.now }
    requires named { FitsSlot new_name.now }
    ensures judged { S.tells → (name : List ℕ) → IsStrong (frame (S.image store.old)) → AreSetsOf (S.image store.old) sets.now.blocks sets.now.inodes → AreFound (S.image store.old) ends.now → FindsOld (S.image store.old) ends.now name new_name.now old.now → (now : ℕ) → IfOk result (JudgesRename (S.image store.old) (call_of ends.now name new_name.now cred.now) now) }
    ensures within { IfOk result (JudgedWithin (S.sector_count store.old)) }
    ensures cause { HasCause (S.faults store.old) (S.faults store.new) result }
    ensures looked { Looked S.Stable store.old store.new }
{
    match find_place(store, ends.to, &ends.to_found, new_name)? {
        NamePlace::Taken(slot) => judge_standing(store, sets, ends, old, &slot, new_name, cred),
        NamePlace::Empty(spot) => Ok(judge_empty(sets, ends, old, &spot, new_name, cred)),
        NamePlace::End => Ok(judge_end(sets, ends, old, new_name, cred)),
    }
}

/// Judges a RENAME whose directories stand (RFC 1094 2.2.12): the refusals before its old name is looked up, NOENT where nothing has it, no change where
/// both names are of one node, then what `rename_refusal` says. Nothing is changed.
pub(crate) fn judge_rename<S: Stable>(
    store: &mut S,
    sets: &Sets,
    ends: &Ends,
    name: &Name,
    new_name: &Name,
    cred: &Cred,
) -> Result<Judged, Failed>
    requires { EndsWithin (S.sector_count store.old) ends.now }
    ensures judged { S.tells → IsStrong (frame (S.image store.old)) → AreSetsOf (S.image store.old) sets.now.blocks sets.now.inodes → AreFound (S.image store.old) ends.now → (now : ℕ) → IfOk result (JudgesRename (S.image store.old) (call_of ends.now name.now new_name.now cred.now) now) }
    ensures within { IfOk result (JudgedWithin (S.sector_count store.old)) }
    ensures cause { HasCause (S.faults store.old) (S.faults store.new) result }
    ensures looked { Looked S.Stable store.old store.new }
{
    let from_kind = kind_of(ends.from_found.inode.mode);
    let to_kind = kind_of(ends.to_found.inode.mode);
    match names_refusal(
        ends.from_found.read_only,
        from_kind,
        to_kind,
        name,
        new_name,
    ) {
        Some(status) => return Ok(Judged::Refused(status)),
        None => {}
    }
    let NamePlace::Taken(slot) = find_place(store, ends.from, &ends.from_found, name)? else {
        return Ok(Judged::Refused(Stat::Noent));
    };
    // no slot that names something has number 0
    if slot.ino == 0 {
        return Ok(Judged::Refused(Stat::Noent));
    }
    let Some(inode) = read_inode(store, slot.ino as u32)? else {
        return Ok(Judged::Refused(Stat::Noent));
    };
    let old = OldName { slot, inode };
    judge_found(store, sets, ends, &old, new_name, cred)
}
