// The plan of a RENAME that makes another directory longer.

ghost use Rattle.std.specs.Prelude.{IfOk};
ghost use Rattle.plan_name.specs.Freeing.{IsDoneReply};
ghost use Rattle.plan_name.specs.Planned.{IsPlannedCall, HasShape, TakesOnly};
ghost use Rattle.plan_rename.specs.Renames.{GrowingWithin, MovesToEnd};
ghost use Rattle.rename_puts.specs.Renamed.{Renaming, asked_of};
ghost use Rattle.v7_map.specs.Frame.{frame};
ghost use Rattle.v7_map.specs.Weak.{IsStrong};
ghost use Rattle.v7_sets.specs.Sets.{AreSetsOf};

use crate::judging::Growing;
use crate::putting::done;
use files_model::Stat;
use plan_file::PlanFault;
use plan_name::{Planned, lay_out, refused, take_new};
use rename_puts::{Moved, SlotPlace, add_longer_move};
use stable::{Plan, Stable};
use std::alloc::Global;
use v7_sets::Sets;

/// Plans a RENAME that moves a name to the end of another directory. The new blocks leave the set of free ones; after a fault the sets are as they were.
pub(crate) fn put_longer<S: Stable>(
    alloc: Global,
    store: &mut S,
    sets: &mut Sets,
    growing: &Growing,
    now: u32,
) -> Result<Planned, PlanFault>
    requires within { GrowingWithin (S.sector_count store.old) growing.now }
    ensures planned { S.tells → IsStrong (frame (S.image store.old)) → AreSetsOf (S.image store.old) sets.old.blocks sets.old.inodes → (call : Renaming) → MovesToEnd (S.image store.old) call now growing.now → IfOk result (λ r. IsPlannedCall (S.image store.old) (asked_of call) now sets.new r) }
    ensures shape { HasShape S.Stable store.old store.new 5 IsDoneReply result }
    ensures takes { TakesOnly sets.old sets.new result }
{
    let Some(laid) = lay_out(store, &sets.blocks, &growing.inode)? else {
        return Ok(refused(alloc, Stat::Io));
    };
    let moved = Moved {
        old: growing.old,
        new: SlotPlace {
            directory: growing.to,
            index: growing.inode.size / 16,
            sector: laid.sector,
        },
        slot: growing.slot,
    };
    let mut plan = Plan::new(alloc, 5)?;
    add_longer_move(store, &mut plan, &moved, &laid.longer, now)?;
    take_new(&mut sets.blocks, &laid.new);
    Ok(done(plan))
}
