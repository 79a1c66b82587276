// The tests of the walked directories, by what was noted of them.

ghost use Rattle.std.specs.Prelude.{◌≡◌, ◌<◌, ◌≤◌, ℕ, ◌-◌, List, Bool, true, length, OnOk, IsErrOf, None};
ghost use Rattle.stable.specs.Store.{Image};
ghost use Rattle.v7_map.specs.Frame.{frame};
ghost use Rattle.v7_map.specs.Tree.{Tree, tree, is_walked};
ghost use Rattle.v7_damage.specs.Names.{AreHeld, ComesBefore, HasNoted, PastWrong, is_held, tests_of_directory, tests_of_directories};
ghost use Rattle.v7_damage.specs.Tables.{HasTables};
ghost use Rattle.v7_damage.specs.Tests.{IsTold};
ghost use Rattle.v7_damage.specs.Walk.{AreWalked};
ghost use Rattle.v7_damage.specs.declared.damage.RepairFault.TheVariants as fault;

use crate::damage::{Damage, RepairFault};
use crate::listed::Listed;
use crate::marks::Marks;
use crate::noted::Noted;
use crate::walk::Walks;
use v7_read::inode_sector_of;

/// The i-number of the root (filsys(5)).
const ROOT: u16 = 2;

// Whether the parent of a walked directory holds it.
fn is_held(ino: u16, ups: &[u16], held: &Marks) -> bool
    requires { ino < length ups.now }
    ensures { (t : Tree) (found : List Bool) → AreWalked t found ups.now → AreHeld t held.now (length found) → is_walked t ino ≡ true → result ≡ is_held t ino }
{
    if ino == ROOT {
        return ups[ino as usize] == ROOT;
    }
    held.has(ino as u32)
}

// Tests one directory, if it is walked: whether it begins with `.` and `..` and its parent holds it, and whether a slot was wrong.
fn test_directory(
    ino: u16,
    listed: &Listed,
    walks: &Walks,
    noted: &Noted,
) -> Result<(), RepairFault>
    requires some { 1 ≤ ino }
    requires within { ino < length listed.now.types.items }
    requires found { length walks.now.found ≡ length listed.now.types.items }
    requires ups { length walks.now.ups.items ≡ length listed.now.types.items }
    ensures told { (image : Image) → HasNoted image listed.now.types.items listed.now.bodies walks.now noted.now.parents noted.now.kept (length listed.now.types.items)
        → ComesBefore ino noted.now.kept → IsTold (frame image) (tests_of_directory (tree (frame image)) ino) result }
    ensures past { (image : Image) → HasNoted image listed.now.types.items listed.now.bodies walks.now noted.now.parents noted.now.kept (length listed.now.types.items)
        → ComesBefore ino noted.now.kept → OnOk result (PastWrong ino noted.now.kept) }
    ensures works { IsErrOf result fault.Failed → ⊥ }
{
    if !walks.found.has(ino as u32) {
        return Ok(());
    }
    let sector = inode_sector_of(ino as u32);
    let kind = Damage::Dots;
    if !noted.parents.dotted.has(ino as u32) {
        return Err(RepairFault::Damaged { sector, kind });
    }
    if !is_held(ino, &walks.ups, &noted.parents.held) {
        return Err(RepairFault::Damaged { sector, kind });
    }
    match noted.kept.wrong {
        None => Ok(()),
        Some(wrong) => {
            if wrong.ino != ino {
                return Ok(());
            }
            let sector = wrong.sector;
            let kind = Damage::Slot;
            Err(RepairFault::Damaged { sector, kind })
        }
    }
}

/// Tests the walked directories in rising number.
pub(crate) fn test_directories(
    listed: &Listed,
    walks: &Walks,
    noted: &Noted,
) -> Result<(), RepairFault>
    requires some { 1 ≤ length listed.now.types.items }
    requires few { length listed.now.types.items ≤ 65536 }
    requires found { length walks.now.found ≡ length listed.now.types.items }
    requires ups { length walks.now.ups.items ≡ length listed.now.types.items }
    ensures told { (image : Image) → HasNoted image listed.now.types.items listed.now.bodies walks.now noted.now.parents noted.now.kept (length listed.now.types.items)
        → IsTold (frame image) (tests_of_directories (tree (frame image)) 1 (length listed.now.types.items - 1)) result }
    ensures none { (image : Image) → HasNoted image listed.now.types.items listed.now.bodies walks.now noted.now.parents noted.now.kept (length listed.now.types.items)
        → OnOk result (noted.now.kept.wrong ≡ None) }
    ensures works { IsErrOf result fault.Failed → ⊥ }
{
    for ino in 1..listed.types.len() {
        match test_directory(ino as u16, listed, walks, noted) {
            Ok(()) => {}
            Err(fault) => return Err(fault),
        }
    }
    Ok(())
}
