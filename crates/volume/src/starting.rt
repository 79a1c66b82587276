// The opening of a volume.
ghost use Rattle.std.specs.Prelude.{◌≡◌, ◌≤◌, ◌+◌, IfOk, IsErrOf};
ghost use Rattle.stable.specs.Counts.{Rose};
ghost use Rattle.stable.specs.Moments.{LeavesOnly};
ghost use Rattle.stable.specs.States.{SomePuts};
ghost use Rattle.stable.specs.Store.{StaysOpenable};
ghost use Rattle.v7_damage.specs.declared.damage.RepairFault.TheVariants as fault;
ghost use Rattle.v7_make.specs.Chains.{FitStore};
ghost use Rattle.v7_repair.specs.Runs.{repair_puts};
ghost use Rattle.volume.specs.Keeps.{MayOpen};
ghost use Rattle.volume.specs.Opens.{Starts};

use crate::marking::mark_open;
use crate::opening::{Title, look};
use stable::Stable;
use std::alloc::Global;
use v7_damage::{Damage, RepairFault};
use v7_repair::{Mended, repair};

/// What an opening found.
#[derive(Drop)]
pub struct Opening {
    pub mended: Mended,
    pub title: Title,
}

/// Mends the volume on a store, says in its super-block that it is open, and reads its name and its root.
pub fn open_store<S: Stable>(alloc: Global, store: &mut S, now: u32) -> Result<Opening, RepairFault>
    ensures starts { S.tells → Starts (S.image store.old) (S.image store.new) now result }
    ensures fits { IfOk result (λ opening. FitStore (S.sector_count store.old) opening.mended.sets.blocks opening.mended.sets.inodes) }
    ensures later { S.faults store.old ≤ S.faults store.new }
    ensures cause { IsErrOf result fault.Failed → Rose (S.faults store.old) (S.faults store.new) }
    ensures crash { LeavesOnly S.moment S.left_since store.old store.new (MayOpen (S.image store.old)) }
    ensures opens { S.tells → StaysOpenable S.opens_since S.moment store.old store.new }
    ensures sectors { S.sector_count store.new ≡ S.sector_count store.old }
    ensures snapshot { SomePuts (repair_puts + 1) (S.faults store.old) (S.faults store.new) (S.snapshot_of store.old) (S.snapshot_of store.new) }
{
    let mended = match repair(alloc, store) {
        Ok(mended) => mended,
        Err(fault) => return Err(fault),
    };
    mark_open(store, now)?;
    match look(store)? {
        Some(title) => Ok(Opening { mended, title }),
        None => Err(RepairFault::Damaged {
            sector: 1,
            kind: Damage::Sizes,
        }),
    }
}
