// The second reading of the walked directories.

ghost use Rattle.std.specs.Prelude.{◌≡◌, ◌<◌, ◌≤◌, ◌+◌, length, OnOk, IfOk, IsErrOf};
ghost use Rattle.stable.specs.Counts.{Rose};
ghost use Rattle.stable.specs.Looked.{Looked};
ghost use Rattle.v7_map.specs.Image.{inode_sector};
ghost use Rattle.v7_map.specs.Frame.{frame};
ghost use Rattle.v7_map.specs.Tree.{tree};
ghost use Rattle.v7_damage.specs.Listed.{HasList};
ghost use Rattle.v7_damage.specs.Names.{AreTypes, HasNoted, HasRoom};
ghost use Rattle.v7_damage.specs.Noted.{IsNothing};
ghost use Rattle.v7_damage.specs.Tables.{HasTables};
ghost use Rattle.v7_damage.specs.Tests.{NotDamaged};
ghost use Rattle.v7_damage.specs.Walk.{AreWalked, CanWalk};
ghost use Rattle.v7_damage.specs.declared.damage.RepairFault.TheVariants as fault;

use crate::damage::RepairFault;
use crate::listed::Listed;
use crate::marks::Marks;
use crate::names::{Kept, keep_slots};
use crate::parents::{Parents, hold_named, note_dots};
use crate::slots::read_directory;
use crate::walk::Walks;
use stable::{NoMemory, Stable};
use std::alloc::Global;
use v7_layout::Slot;

/// How many slots a directory has at most.
const MOST_SLOTS: usize = 4416;

// Reads one directory, if it is walked, and notes its slots.
fn note_directory<S: Stable>(
    store: &mut S,
    listed: &Listed,
    walks: &Walks,
    ino: u16,
    parents: &mut Parents,
    kept: &mut Kept,
    slots: &mut Vec<Slot>,
) -> Result<(), RepairFault>
    requires tables { HasTables (length listed.now.types.items) listed.now.types.items listed.now.bodies }
    requires ups { length walks.now.ups.items ≡ length listed.now.types.items }
    requires room { HasRoom (length listed.now.types.items) parents.old kept.old }
    requires stands { inode_sector ino < S.sector_count store.old }
    requires some { 1 ≤ ino }
    requires within { ino < length listed.now.types.items }
    ensures noted { S.tells → HasNoted (S.image store.old) listed.now.types.items listed.now.bodies walks.now parents.old kept.old ino
        → OnOk result (HasNoted (S.image store.old) listed.now.types.items listed.now.bodies walks.now parents.new kept.new (ino + 1)) }
    ensures room { HasRoom (length listed.now.types.items) parents.new kept.new }
    ensures undamaged { NotDamaged result }
    ensures cause { IsErrOf result fault.Failed → Rose (S.faults store.old) (S.faults store.new) }
    ensures looked { Looked S.Stable store.old store.new }
{
    if !walks.found.has(ino as u32) {
        return Ok(());
    }
    let sectors = read_directory(store, &listed.bodies, ino, slots)?;
    let first = slots.len().min(2);
    hold_named(&slots[first..], ino, &walks.ups, &mut parents.held);
    note_dots(ino, slots, &mut parents.dotted);
    keep_slots(slots, ino, &listed.bodies, &sectors, &listed.types, kept);
    Ok(())
}

/// What a second reading of the walked directories finds.
#[derive(Drop)]
pub(crate) struct Noted {
    pub(crate) parents: Parents,
    pub(crate) kept: Kept,
}

// Nothing was noted.
fn nothing_noted(alloc: Global, size: usize) -> Result<Noted, NoMemory>
    requires { size ≤ 65536 }
    ensures { IfOk result (λ noted. IsNothing size noted) }
{
    let parents = Parents {
        held: Marks::new(alloc, size as u32)?,
        dotted: Marks::new(alloc, size as u32)?,
    };
    let kept = Kept {
        counts: vec![in alloc; 0; size]?,
        named: Marks::new(alloc, size as u32)?,
        wrong: None,
    };
    Ok(Noted { parents, kept })
}

/// Reads the walked directories in rising number, each once, and notes their slots. Nothing is changed.
pub(crate) fn note_directories<S: Stable>(
    alloc: Global,
    store: &mut S,
    listed: &Listed,
    walks: &Walks,
) -> Result<Noted, RepairFault>
    requires list { HasList (S.sector_count store.old) listed.now }
    requires ups { length walks.now.ups.items ≡ length listed.now.types.items }
    ensures noted { S.tells → AreTypes (frame (S.image store.old)) listed.now.types.items → CanWalk (S.image store.old) listed.now.types.items listed.now.bodies
        → AreWalked (tree (frame (S.image store.old))) walks.now.found walks.now.ups.items
        → IfOk result (λ noted. HasNoted (S.image store.old) listed.now.types.items listed.now.bodies walks.now noted.parents noted.kept (length listed.now.types.items)) }
    ensures room { IfOk result (λ noted. HasRoom (length listed.now.types.items) noted.parents noted.kept) }
    ensures undamaged { NotDamaged result }
    ensures cause { IsErrOf result fault.Failed → Rose (S.faults store.old) (S.faults store.new) }
    ensures looked { Looked S.Stable store.old store.new }
{
    let Noted {
        mut parents,
        mut kept,
    } = nothing_noted(alloc, listed.types.len())?;
    let mut slots = Vec::with_capacity(alloc, MOST_SLOTS)?;
    for ino in 1..listed.types.len() {
        note_directory(
            store,
            listed,
            walks,
            ino as u16,
            &mut parents,
            &mut kept,
            &mut slots,
        )?;
    }
    Ok(Noted { parents, kept })
}
