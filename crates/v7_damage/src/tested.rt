// All tests of a volume.

ghost use Rattle.std.specs.Prelude.{◌≡◌, ◌-◌, length, IfOk, IsErrOf};
ghost use Rattle.stable.specs.Counts.{Rose};
ghost use Rattle.stable.specs.Looked.{Looked};
ghost use Rattle.v7_map.specs.Frame.{frame};
ghost use Rattle.v7_map.specs.Tree.{tree};
ghost use Rattle.v7_damage.specs.Listed.{HasList};
ghost use Rattle.v7_damage.specs.Names.{AreTypes, tests_of_directories};
ghost use Rattle.v7_damage.specs.Tallied.{HasTally, HasTallyRoom};
ghost use Rattle.v7_damage.specs.Tests.{IsTold, NotDamaged};
ghost use Rattle.v7_damage.specs.Undamaged.{AreNames, HasEntries, HasNames, IsTested};
ghost use Rattle.v7_damage.specs.Walk.{AreWalked, CanWalk};
ghost use Rattle.v7_damage.specs.declared.damage.RepairFault.TheVariants as fault;

use crate::damage::RepairFault;
use crate::directories::test_directories;
use crate::listed::{Listed, list_inodes};
use crate::marks::Marks;
use crate::noted::note_directories;
use crate::summary::Summary;
use crate::tally::{Tally, all_pass, no_tally};
use crate::walk::{Walks, walk};
use stable::Stable;
use std::alloc::Global;
use v7_layout::Super;

// Walks through the directories. Nothing is changed.
fn walk_all<S: Stable>(
    alloc: Global,
    store: &mut S,
    listed: &Listed,
    tally: &mut Tally,
) -> Result<Walks, RepairFault>
    requires list { HasList (S.sector_count store.old) listed.now }
    requires room { HasTallyRoom (length listed.now.types.items) tally.old }
    ensures tally { S.tells → AreTypes (frame (S.image store.old)) listed.now.types.items → CanWalk (S.image store.old) listed.now.types.items listed.now.bodies
        → HasTally (frame (S.image store.old)) listed.now.types.items tally.old → HasTally (frame (S.image store.old)) listed.now.types.items tally.new }
    ensures room { HasTallyRoom (length listed.now.types.items) tally.new }
    ensures walked { S.tells → CanWalk (S.image store.old) listed.now.types.items listed.now.bodies → IfOk result (λ walks. AreWalked (tree (frame (S.image store.old))) walks.found walks.ups.items) }
    ensures found { IfOk result (λ walks. length walks.found ≡ length listed.now.types.items) }
    ensures ups { IfOk result (λ walks. length walks.ups.items ≡ length listed.now.types.items) }
    ensures undamaged { NotDamaged result }
    ensures cause { IsErrOf result fault.Failed → Rose (S.faults store.old) (S.faults store.new) }
    ensures looked { Looked S.Stable store.old store.new }
{
    let mut ups = vec![in alloc; 0; listed.types.len()]?;
    let found = walk(alloc, store, &listed.types, &listed.bodies, &mut ups, tally)?;
    Ok(Walks { found, ups })
}

// The walked directories, and how many of their slots name each i-number.
#[derive(Drop)]
struct Names {
    walked: Marks,
    counts: Vec<u16>,
}

// Finds the first test of the walked directories that fails, if one does, by a second reading of them. Nothing is changed.
fn test_again<S: Stable>(
    alloc: Global,
    store: &mut S,
    listed: &Listed,
    walks: Walks,
) -> Result<Names, RepairFault>
    requires list { HasList (S.sector_count store.old) listed.now }
    requires ups { length walks.ups.items ≡ length listed.now.types.items }
    requires found { length walks.found ≡ length listed.now.types.items }
    ensures told { S.tells → AreTypes (frame (S.image store.old)) listed.now.types.items → CanWalk (S.image store.old) listed.now.types.items listed.now.bodies
        → AreWalked (tree (frame (S.image store.old))) walks.found walks.ups.items
        → IsTold (frame (S.image store.old)) (tests_of_directories (tree (frame (S.image store.old))) 1 (length listed.now.types.items - 1)) result }
    ensures names { S.tells → AreTypes (frame (S.image store.old)) listed.now.types.items → CanWalk (S.image store.old) listed.now.types.items listed.now.bodies
        → AreWalked (tree (frame (S.image store.old))) walks.found walks.ups.items
        → IfOk result (AreNames (S.image store.old) (length listed.now.types.items)) }
    ensures tables { IfOk result (HasNames (length listed.now.types.items)) }
    ensures cause { IsErrOf result fault.Failed → Rose (S.faults store.old) (S.faults store.new) }
    ensures looked { Looked S.Stable store.old store.new }
{
    let noted = match note_directories(alloc, store, listed, &walks) {
        Ok(noted) => noted,
        Err(fault) => return Err(fault),
    };
    match test_directories(listed, &walks, &noted) {
        Ok(()) => {
            let kept = noted.kept;
            Ok(Names {
                walked: walks.found,
                counts: kept.counts,
            })
        }
        Err(fault) => Err(fault),
    }
}

// Tests the directories, after the inodes. Each is read once, and a second time where that shows that one of the tests may fail. Nothing is changed.
fn test_names<S: Stable>(
    alloc: Global,
    store: &mut S,
    listed: &Listed,
) -> Result<Names, RepairFault>
    requires { HasList (S.sector_count store.old) listed.now }
    ensures told { S.tells → AreTypes (frame (S.image store.old)) listed.now.types.items → CanWalk (S.image store.old) listed.now.types.items listed.now.bodies
        → IsTold (frame (S.image store.old)) (tests_of_directories (tree (frame (S.image store.old))) 1 (length listed.now.types.items - 1)) result }
    ensures names { S.tells → AreTypes (frame (S.image store.old)) listed.now.types.items → CanWalk (S.image store.old) listed.now.types.items listed.now.bodies
        → IfOk result (AreNames (S.image store.old) (length listed.now.types.items)) }
    ensures tables { IfOk result (HasNames (length listed.now.types.items)) }
    ensures cause { IsErrOf result fault.Failed → Rose (S.faults store.old) (S.faults store.new) }
    ensures looked { Looked S.Stable store.old store.new }
{
    let mut tally = no_tally(alloc, listed.types.len())?;
    let walks = match walk_all(alloc, store, listed, &mut tally) {
        Ok(walks) => walks,
        Err(fault) => return Err(fault),
    };
    if all_pass(&walks, &tally) {
        let kept = tally.kept;
        return Ok(Names {
            walked: walks.found,
            counts: kept.counts,
        });
    }
    drop(tally);
    test_again(alloc, store, listed, walks)
}

/// What the tests of a volume found out, where none failed. Its tables go by i-number, and their entry at 0 is that of no inode.
#[derive(Drop)]
pub struct Undamaged {
    pub super_block: Super,
    /// The type of each inode, as in the four highest bits of its mode (filsys(5)): 4 a directory, 8 a regular file, 10 a symbolic link, 0 none.
    pub types: Vec<u8>,
    /// The directories that are walked: the root, and those that a slot of a walked one names.
    pub walked: Marks,
    /// How many slots of walked directories name each inode.
    pub counts: Vec<u16>,
    /// What is kept of each used inode.
    pub summaries: Vec<Summary>,
}

/// Makes the tests of a volume in their order (docs/FORMATS.md, damage). `Damaged` tells the first that fails, by its sector and its kind, exactly
/// where one does. It reads each sector of the i-list and each indirect block once, and each sector of a walked directory once, or twice where a test
/// fails; where the directories have more than 150,000 sectors, the inodes and indirect blocks of those past them again before each reading. Nothing
/// is changed.
pub fn find_damage<S: Stable>(alloc: Global, store: &mut S) -> Result<Undamaged, RepairFault>
    ensures tested { S.tells → IsTested (S.image store.old) result }
    ensures tables { IfOk result (HasEntries (S.sector_count store.old)) }
    ensures cause { IsErrOf result fault.Failed → Rose (S.faults store.old) (S.faults store.new) }
    ensures looked { Looked S.Stable store.old store.new }
{
    let listed = match list_inodes(alloc, store) {
        Ok(listed) => listed,
        Err(fault) => return Err(fault),
    };
    match test_names(alloc, store, &listed) {
        Ok(names) => Ok(Undamaged {
            super_block: listed.super_block,
            types: listed.types,
            walked: names.walked,
            counts: names.counts,
            summaries: listed.bodies.summaries,
        }),
        Err(fault) => Err(fault),
    }
}
