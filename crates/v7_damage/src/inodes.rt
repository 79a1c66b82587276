// The tests of the inodes.

ghost use Rattle.std.specs.Prelude.{◌≡◌, ◌<◌, ◌≤◌, ℕ, ◌+◌, ◌++◌, true, length, [], ◌∷◌, get_or, None, OnOk, IsErrOf};
ghost use Rattle.std.specs.Option.{option_map};
ghost use Rattle.stable.specs.Counts.{Rose};
ghost use Rattle.stable.specs.Looked.{Looked};
ghost use Rattle.v7_map.specs.Image.{inode_sector};
ghost use Rattle.v7_map.specs.Frame.{Frame, frame, head_of};
ghost use Rattle.v7_map.specs.Damage.{has_kind, has_length};
ghost use Rattle.v7_damage.specs.Marks.{AreSeen};
ghost use Rattle.v7_damage.specs.Stored.{Keeps};
ghost use Rattle.v7_damage.specs.Tables.{AreBodies, HasTables, IsFirst};
ghost use Rattle.v7_damage.specs.Tests.{HasInode, HasNumbers, IsTold, first_failing, kind_of_test, tests_of, tests_of_inodes, earlier_blocks};
ghost use Rattle.v7_damage.specs.declared.damage.RepairFault.TheVariants as fault;

use crate::bodies::{Bodies, keep_body, keep_none};
use crate::damage::{Damage, RepairFault};
use crate::marks::Marks;
use crate::places::test_places;
use crate::reader::InodeReader;
use stable::Stable;
use v7_layout::Inode;
use v7_read::{inode_sector_of, read_places};

/// The i-number of the root, and that of the inode before it, which is never used (filsys(5)).
const ROOT: u32 = 2;

const UNUSED: u32 = 1;

/// The types of directories, regular files and links in the four highest bits of a mode.
const DIRECTORY: u16 = 4;

const REGULAR: u16 = 8;

const LINK: u16 = 10;

// Whether an inode of this number may have this type.
fn has_kind(ino: u32, inode: &Inode) -> bool
    ensures { result ≡ has_kind ino (head_of inode.now) }
{
    let kind = inode.mode / 4096;
    if ino == UNUSED {
        return false;
    }
    if ino == ROOT {
        return kind == DIRECTORY;
    }
    kind == DIRECTORY || kind == REGULAR || kind == LINK
}

// Whether an inode of its type may have this size.
fn has_length(inode: &Inode) -> bool
    ensures { result ≡ has_length (head_of inode.now) }
{
    let kind = inode.mode / 4096;
    if inode.size > 70_656 {
        return false;
    }
    if kind == LINK {
        return inode.size <= 1024;
    }
    if kind == DIRECTORY {
        return 32 <= inode.size && inode.size % 16 == 0;
    }
    true
}

// The first test that fails of those of a used inode. Its blocks are seen from then on.
fn test_inode(
    ino: u32,
    inode: &Inode,
    places: &[u32; 140],
    isize: u32,
    fsize: u32,
    seen: &mut Marks,
) -> Option<Damage>
    requires fits { fsize ≤ length seen.old }
    requires number { 1 ≤ ino }
    ensures tested { (f : Frame) → HasInode f ino isize fsize inode.now places.now → (f.head ino).is_used ≡ true
        → AreSeen seen.old (earlier_blocks f ino 0) → result ≡ option_map kind_of_test (first_failing f (tests_of f ino)) }
    ensures seen { (f : Frame) → HasInode f ino isize fsize inode.now places.now
        → AreSeen seen.old (earlier_blocks f ino 0) → result ≡ None → AreSeen seen.new (earlier_blocks f (ino + 1) 0) }
    ensures length { length seen.new ≡ length seen.old }
{
    if !has_kind(ino, inode) {
        return Some(Damage::Kind);
    }
    if !has_length(inode) {
        return Some(Damage::Length);
    }
    test_places(inode, places, isize, fsize, seen)
}

// Tests one inode, and puts its type, its summary, and where its slots stand, at the end of the tables. Of a free one the mode alone is read.
// Nothing is changed.
fn test_next<S: Stable>(
    store: &mut S,
    reader: &mut InodeReader,
    ino: u32,
    isize: u32,
    fsize: u32,
    seen: &mut Marks,
    types: &mut Vec<u8>,
    bodies: &mut Bodies,
) -> Result<(), RepairFault>
    requires stands { inode_sector ino < S.sector_count store.old }
    requires number { 1 ≤ ino }
    requires few { ino ≤ 65535 }
    requires fits { fsize ≤ length seen.old }
    requires tables { HasTables ino types.old.items bodies.old }
    ensures told { S.tells → (n : ℕ) → HasNumbers (S.image store.old) isize fsize n → ino ≤ n → Keeps (S.image store.old) reader.old → AreSeen seen.old (earlier_blocks (frame (S.image store.old)) ino 0)
        → IsTold (frame (S.image store.old)) (tests_of (frame (S.image store.old)) ino) result }
    ensures seen { S.tells → (n : ℕ) → HasNumbers (S.image store.old) isize fsize n → ino ≤ n → Keeps (S.image store.old) reader.old → AreSeen seen.old (earlier_blocks (frame (S.image store.old)) ino 0)
        → OnOk result (AreSeen seen.new (earlier_blocks (frame (S.image store.old)) (ino + 1) 0)) }
    ensures types { S.tells → (n : ℕ) → HasNumbers (S.image store.old) isize fsize n → ino ≤ n → Keeps (S.image store.old) reader.old
        → OnOk result (types.new.items ≡ types.old.items ++ ((frame (S.image store.old)).head ino).type ∷ []) }
    ensures bodies { S.tells → (n : ℕ) → HasNumbers (S.image store.old) isize fsize n → ino ≤ n → Keeps (S.image store.old) reader.old
        → AreBodies (S.image store.old) bodies.old ino → OnOk result (AreBodies (S.image store.old) bodies.new (ino + 1)) }
    ensures tables { OnOk result (HasTables (ino + 1) types.new.items bodies.new) }
    ensures length { length seen.new ≡ length seen.old }
    ensures keeps { S.tells → Keeps (S.image store.old) reader.old → Keeps (S.image store.old) reader.new }
    ensures cause { IsErrOf result fault.Failed → Rose (S.faults store.old) (S.faults store.new) }
    ensures looked { Looked S.Stable store.old store.new }
{
    let mode = reader.mode(store, ino)?;
    if mode == 0 {
        if ino == ROOT {
            let sector = inode_sector_of(ino);
            let kind = Damage::Kind;
            return Err(RepairFault::Damaged { sector, kind });
        }
        types.push(0)?;
        keep_none(bodies)?;
        return Ok(());
    }
    let inode = reader.read(store, ino)?;
    let places = read_places(store, &inode)?;
    match test_inode(ino, &inode, &places, isize, fsize, seen) {
        None => {}
        Some(kind) => {
            let sector = inode_sector_of(ino);
            return Err(RepairFault::Damaged { sector, kind });
        }
    }
    types.push((inode.mode / 4096) as u8)?;
    keep_body(bodies, &inode, &places)?;
    Ok(())
}

/// Tests the inodes in rising number, and puts the type and the summary of each, and where the slots of directories stand, at the end of tables
/// that have an entry for i-number 0. Nothing is changed.
pub(crate) fn test_inodes<S: Stable>(
    store: &mut S,
    isize: u32,
    fsize: u32,
    inodes: u32,
    seen: &mut Marks,
    types: &mut Vec<u8>,
    bodies: &mut Bodies,
) -> Result<(), RepairFault>
    requires stand { (i : ℕ) → i ≤ inodes → inode_sector i < S.sector_count store.old }
    requires few { inodes ≤ 65535 }
    requires fits { fsize ≤ length seen.old }
    requires first { types.old.items ≡ 0 ∷ [] }
    requires bodies { IsFirst bodies.old }
    ensures told { S.tells → HasNumbers (S.image store.old) isize fsize inodes → AreSeen seen.old [] → IsTold (frame (S.image store.old)) (tests_of_inodes (frame (S.image store.old)) 1 inodes) result }
    ensures types { S.tells → HasNumbers (S.image store.old) isize fsize inodes → OnOk result ((i : ℕ) → get_or types.new.items i 0 ≡ ((frame (S.image store.old)).head i).type) }
    ensures bodies { S.tells → HasNumbers (S.image store.old) isize fsize inodes → OnOk result (AreBodies (S.image store.old) bodies.new (inodes + 1)) }
    ensures tables { OnOk result (HasTables (inodes + 1) types.new.items bodies.new) }
    ensures cause { IsErrOf result fault.Failed → Rose (S.faults store.old) (S.faults store.new) }
    ensures looked { Looked S.Stable store.old store.new }
{
    let mut reader = InodeReader::new();
    for ino in 1..inodes + 1 {
        match test_next(store, &mut reader, ino, isize, fsize, seen, types, bodies) {
            Ok(()) => {}
            Err(fault) => return Err(fault),
        }
    }
    Ok(())
}
