// The plan of a MKDIR of a free name whose parent has an empty slot.

ghost use Rattle.std.specs.Prelude.{◌≡◌, ◌<◌, ◌≤◌, false, IfOk};
ghost use Rattle.files_model.specs.Files.{Node};
ghost use Rattle.files_model.specs.Names.{place_for};
ghost use Rattle.files_model.specs.declared.call.Call.TheVariants.{Mkdir};
ghost use Rattle.plan_mkdir.specs.Free.{IsFreeName};
ghost use Rattle.plan_name.specs.Created.{IsHandleReply};
ghost use Rattle.plan_name.specs.Creations.{FitsSlot};
ghost use Rattle.plan_name.specs.Judging.{IsTold};
ghost use Rattle.plan_name.specs.Planned.{IsPlannedCall, HasShape, TakesOnly};
ghost use Rattle.v7_map.specs.View.{view};
ghost use Rattle.v7_strokes.specs.Entries.{entry_sector};

use crate::judging::judge_new;
use crate::making::make_in_place;
use crate::spare::choose_new;
use files_model::{Attr, Cred, Name, Sattr, Stat};
use plan_file::PlanFault;
use plan_name::{Planned, Spot, none_freed, refused};
use stable::{Plan, Stable};
use std::alloc::Global;
use v7_sets::Sets;

/// Plans a MKDIR (RFC 1094 2.2.15) of a free name whose parent has an empty slot, by the parent's attributes: the new directory's first sector, its inode,
/// the slot's sector, and the parent's inode with one link more and its times; nothing where it is refused. Nothing is put. All memory that the plan needs is
/// taken here. The new directory's block, the lowest that is free, and its i-number leave the sets of what is free; after a fault they are as they were.
pub fn plan_in_place<S: Stable>(
    alloc: Global,
    store: &mut S,
    sets: &mut Sets,
    parent: &Attr,
    spot: &Spot,
    name: &Name,
    wanted: &Sattr,
    cred: &Cred,
    now: u32,
) -> Result<Planned, PlanFault>
    requires within { (spot.now.sector < S.sector_count store.old) × (2 ≤ spot.now.sector) }
    requires named { FitsSlot name.now }
    ensures planned { S.tells → (d : Node) → IsTold (S.image store.old) spot.now.directory.ino d parent.now false sets.old.blocks sets.old.inodes → IsFreeName (view (S.image store.old)) spot.now.directory name.now d → spot.now.index ≡ place_for d.slots → spot.now.sector ≡ entry_sector (S.image store.old) spot.now.directory.ino spot.now.index → IfOk result (λ r. IsPlannedCall (S.image store.old) (Mkdir spot.now.directory name.now wanted.now, cred.now) now sets.new r) }
    ensures shape { HasShape S.Stable store.old store.new 4 IsHandleReply result }
    ensures takes { TakesOnly sets.old sets.new result }
{
    let number = match judge_new(parent, false, sets, cred) {
        Ok(number) => number,
        Err(status) => return Ok(refused(alloc, status)),
    };
    let sectors = store.sectors();
    let Some(new) = choose_new(&sets.blocks, number, spot.directory.ino, 0, sectors) else {
        return Ok(refused(alloc, Stat::Io));
    };
    let mut plan = Plan::new(alloc, 4)?;
    let reply = make_in_place(store, &mut plan, &new, spot, name, wanted, cred, now)?;
    sets.inodes.take(new.ino);
    sets.blocks.take(new.block);
    Ok(Planned {
        plan,
        reply,
        freed: none_freed(),
    })
}
