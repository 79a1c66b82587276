// What is free after a repair.

ghost use Rattle.std.specs.Prelude.{◌≡◌, ◌<◌, ◌≤◌, ℕ, false, length, replicate, IfOk, OnOk, IsErrOf};
ghost use Rattle.stable.specs.Counts.{HasCause, Rose};
ghost use Rattle.stable.specs.Looked.{Looked};
ghost use Rattle.index_sets.specs.Free.{is_free};
ghost use Rattle.v7_damage.specs.Stored.{Keeps};
ghost use Rattle.v7_damage.specs.Tests.{NotDamaged};
ghost use Rattle.v7_damage.specs.Undamaged.{HasEntries, IsUndamaged};
ghost use Rattle.v7_damage.specs.declared.damage.RepairFault.TheVariants as fault;
ghost use Rattle.v7_repair.specs.Free.{AreLeft, HasRoom, is_fresh, is_left, is_unnamed};

use stable::{Failed, Stable};
use std::alloc::Global;
use v7_damage::{InodeReader, Marks, RepairFault, Undamaged};
use v7_inspect::is_named;
use v7_sets::Sets;

// Gives the data blocks that no file needs to sets without any; the data begin at block `isize`.
fn give_blocks(isize: u32, needed: &Marks, sets: &mut Sets)
    requires place { isize ≤ length needed.now }
    requires none { sets.old.blocks ≡ replicate (length needed.now) false }
    ensures blocks { (b : ℕ) → is_free sets.new.blocks b ≡ is_left isize needed.now b }
    ensures length { length sets.new.blocks ≡ length needed.now }
    ensures inodes { sets.new.inodes ≡ sets.old.inodes }
{
    for block in isize..needed.size() {
        if !needed.has(block) {
            sets.blocks.give(block);
        }
    }
}

// Whether nothing names an inode, and its generation can go up. Nothing is changed.
fn is_unnamed<S: Stable>(
    store: &mut S,
    reader: &mut InodeReader,
    known: &Undamaged,
    ino: u32,
) -> Result<bool, Failed>
    requires entries { HasEntries (S.sector_count store.old) known.now }
    requires some { 1 ≤ ino }
    requires within { ino < length known.now.types.items }
    ensures unnamed { S.tells → Keeps (S.image store.old) reader.old → IsUndamaged (S.image store.old) known.now → IfOk result (λ so. so ≡ is_unnamed (S.image store.old) ino) }
    ensures keeps { S.tells → Keeps (S.image store.old) reader.old → Keeps (S.image store.old) reader.new }
    ensures cause { HasCause (S.faults store.old) (S.faults store.new) result }
    ensures looked { Looked S.Stable store.old store.new }
{
    if is_named(known, ino) {
        return Ok(false);
    }
    let inode = reader.read(store, ino)?;
    Ok(inode.generation < u32::MAX)
}

// Gives the i-numbers that a new file may have to sets without any. Nothing is changed.
fn give_numbers<S: Stable>(store: &mut S, known: &Undamaged, sets: &mut Sets) -> Result<(), Failed>
    requires entries { HasEntries (S.sector_count store.old) known.now }
    requires none { sets.old.inodes ≡ replicate (length known.now.types.items) false }
    ensures numbers { S.tells → IsUndamaged (S.image store.old) known.now → OnOk result ((i : ℕ) → is_free sets.new.inodes i ≡ is_fresh (S.image store.old) i) }
    ensures length { length sets.new.inodes ≡ length known.now.types.items }
    ensures blocks { sets.new.blocks ≡ sets.old.blocks }
    ensures cause { HasCause (S.faults store.old) (S.faults store.new) result }
    ensures looked { Looked S.Stable store.old store.new }
{
    let mut reader = InodeReader::new();
    for ino in 3..known.types.len() {
        if is_unnamed(store, &mut reader, known, ino as u32)? {
            sets.inodes.give(ino as u32);
        }
    }
    Ok(())
}

/// What is free after a repair of a volume without damage, of which this is known and these blocks are needed, in one pass over the i-list.
/// `Damaged` doesn't come. Nothing is changed.
pub(crate) fn find_free<S: Stable>(
    alloc: Global,
    store: &mut S,
    known: &Undamaged,
    needed: &Marks,
) -> Result<Sets, RepairFault>
    requires entries { HasEntries (S.sector_count store.old) known.now }
    requires needed { length needed.now ≡ known.now.super_block.s_fsize }
    ensures left { S.tells → IsUndamaged (S.image store.old) known.now → IfOk result (AreLeft (S.image store.old) needed.now) }
    ensures room { IfOk result (HasRoom known.now) }
    ensures undamaged { NotDamaged result }
    ensures cause { IsErrOf result fault.Failed → Rose (S.faults store.old) (S.faults store.new) }
    ensures looked { Looked S.Stable store.old store.new }
{
    let mut sets = Sets::new(alloc, known.super_block.s_fsize, known.types.len() as u32)?;
    give_blocks(known.super_block.s_isize as u32, needed, &mut sets);
    give_numbers(store, known, &mut sets)?;
    Ok(sets)
}
