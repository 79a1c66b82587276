// The blocks that the inodes of a volume without damage need.

ghost use Rattle.std.specs.Prelude.{◌≡◌, ◌≢◌, ◌<◌, ◌≤◌, ◌-◌, ◌||◌, ℕ, length, IfOk, OnOk, IsErrOf};
ghost use Rattle.stable.specs.Counts.{HasCause, Rose};
ghost use Rattle.stable.specs.Looked.{Looked};
ghost use Rattle.v7_damage.specs.Marks.{mark_at};
ghost use Rattle.v7_damage.specs.Stored.{Keeps};
ghost use Rattle.v7_damage.specs.Tests.{NotDamaged};
ghost use Rattle.v7_damage.specs.Undamaged.{HasEntries, IsUndamaged};
ghost use Rattle.v7_damage.specs.declared.damage.RepairFault.TheVariants as fault;
ghost use Rattle.v7_inspect.specs.Judged.{IsJudged};
ghost use Rattle.v7_inspect.specs.Usage.{AreNeeded, is_needed_by};

use crate::needs::mark_needed;
use crate::summed::{is_named, sum_up};
use stable::{Failed, Stable};
use std::alloc::Global;
use v7_damage::{InodeReader, Marks, RepairFault, Undamaged};
use v7_read::read_places;

// Marks the blocks that one inode needs, which is read with its indirect block only where it is named. Nothing is changed.
fn mark_inode<S: Stable>(
    store: &mut S,
    reader: &mut InodeReader,
    ino: u32,
    known: &Undamaged,
    needed: &mut Marks,
) -> Result<(), Failed>
    requires entries { HasEntries (S.sector_count store.old) known.now }
    requires some { 1 ≤ ino }
    requires within { ino < length known.now.types.items }
    ensures marks { S.tells → Keeps (S.image store.old) reader.old → IsUndamaged (S.image store.old) known.now
        → OnOk result ((b : ℕ) → b ≢ 0 → b < length needed.old → mark_at needed.new b ≡ (mark_at needed.old b || is_needed_by (S.image store.old) b ino)) }
    ensures length { length needed.new ≡ length needed.old }
    ensures keeps { S.tells → Keeps (S.image store.old) reader.old → Keeps (S.image store.old) reader.new }
    ensures cause { HasCause (S.faults store.old) (S.faults store.new) result }
    ensures looked { Looked S.Stable store.old store.new }
{
    if !is_named(known, ino) {
        return Ok(());
    }
    let inode = reader.read(store, ino)?;
    let places = read_places(store, &inode)?;
    mark_needed(inode.size, &places, needed);
    Ok(())
}

// Marks the blocks that all inodes need. Nothing is changed.
fn mark_inodes<S: Stable>(
    store: &mut S,
    known: &Undamaged,
    needed: &mut Marks,
) -> Result<(), Failed>
    requires { HasEntries (S.sector_count store.old) known.now }
    ensures marks { S.tells → IsUndamaged (S.image store.old) known.now → AreNeeded (S.image store.old) needed.old 0 → OnOk result (AreNeeded (S.image store.old) needed.new (length known.now.types.items - 1)) }
    ensures length { length needed.new ≡ length needed.old }
    ensures cause { HasCause (S.faults store.old) (S.faults store.new) result }
    ensures looked { Looked S.Stable store.old store.new }
{
    let mut reader = InodeReader::new();
    for ino in 1..known.types.len() {
        mark_inode(store, &mut reader, ino as u32, known, needed)?;
    }
    Ok(())
}

/// What the inodes of a volume without damage add up to.
#[derive(Drop)]
pub struct Judged {
    /// There is nothing to mend.
    pub strong: bool,
    /// How many data blocks the named inodes need, with those that hold addresses.
    pub used: u32,
    /// These blocks, of all below the super-block's s_fsize. Block 0 says nothing.
    pub needed: Marks,
}

/// Judges the inodes of a volume of which all this is known, in one pass that reads those that a slot names, each with its indirect block once.
/// `Damaged` doesn't come. Nothing is changed.
pub fn judge_inodes<S: Stable>(
    alloc: Global,
    store: &mut S,
    known: &Undamaged,
) -> Result<Judged, RepairFault>
    requires { HasEntries (S.sector_count store.old) known.now }
    ensures judged { S.tells → IsUndamaged (S.image store.old) known.now → IfOk result (IsJudged (S.image store.old)) }
    ensures length { IfOk result (λ judged. length judged.needed ≡ known.now.super_block.s_fsize) }
    ensures undamaged { NotDamaged result }
    ensures cause { IsErrOf result fault.Failed → Rose (S.faults store.old) (S.faults store.new) }
    ensures looked { Looked S.Stable store.old store.new }
{
    let mut needed = Marks::new(alloc, known.super_block.s_fsize)?;
    mark_inodes(store, known, &mut needed)?;
    let sum = sum_up(known);
    Ok(Judged {
        strong: sum.strong,
        used: sum.used,
        needed,
    })
}
