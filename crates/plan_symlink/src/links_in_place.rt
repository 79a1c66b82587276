// The plan of a SYMLINK of a free name whose directory has an empty slot.

ghost use Rattle.std.specs.Prelude.{false, IfOk};
ghost use Rattle.files_model.specs.Files.{Node};
ghost use Rattle.files_model.specs.declared.call.Call.TheVariants.{Symlink};
ghost use Rattle.plan_name.specs.Creations.{FitsSlot, SpotWithin};
ghost use Rattle.plan_name.specs.Freeing.{IsDoneReply};
ghost use Rattle.plan_name.specs.Judging.{IsTold};
ghost use Rattle.plan_name.specs.Planned.{IsPlannedCall, HasShape, TakesOnly};
ghost use Rattle.plan_symlink.specs.Judging.{IsFreeName};
ghost use Rattle.plan_symlink.specs.Making.{IsEmptyAt};
ghost use Rattle.v7_map.specs.View.{view};

use crate::judging::judge_link;
use crate::making::make_in_place;
use crate::text_blocks::{choose_text, take_text, text_sectors};
use files_model::{Attr, Cred, Name, Reply, Sattr, Stat, Text};
use plan_file::PlanFault;
use plan_name::{Planned, Spot, can_be_number, none_freed, refused};
use stable::{Plan, Stable};
use std::alloc::Global;
use v7_sets::Sets;

/// Plans a SYMLINK (RFC 1094 2.2.14) of a free name whose directory has an empty slot, by the directory's attributes: the sectors of the text, in the lowest
/// free blocks, the new inode, the slot's sector, and the directory's inode with its times; nothing where it is refused. Nothing is put. All memory that
/// the plan needs is taken here. The new i-number and blocks leave the sets of what is free; after a fault the sets are as they were.
pub(crate) fn plan_link_in_place<S: Stable>(
    alloc: Global,
    store: &mut S,
    sets: &mut Sets,
    directory: &Attr,
    spot: &Spot,
    name: &Name,
    text: &Text,
    wanted: &Sattr,
    cred: &Cred,
    now: u32,
) -> Result<Planned, PlanFault>
    requires within { SpotWithin (S.sector_count store.old) spot.now }
    requires named { FitsSlot name.now }
    ensures planned { S.tells → (d : Node) → IsTold (S.image store.old) spot.now.directory.ino d directory.now false sets.old.blocks sets.old.inodes → IsFreeName (view (S.image store.old)) spot.now.directory name.now d → IsEmptyAt (S.image store.old) spot.now.directory.ino spot.now.index spot.now.sector d → IfOk result (λ r. IsPlannedCall (S.image store.old) (Symlink spot.now.directory name.now text.now wanted.now, cred.now) now sets.new r) }
    ensures shape { HasShape S.Stable store.old store.new 5 IsDoneReply result }
    ensures takes { TakesOnly sets.old sets.new result }
{
    let sectors = text_sectors(text);
    let number = match judge_link(directory, false, sectors, sets, cred) {
        Ok(number) => number,
        Err(status) => return Ok(refused(alloc, status)),
    };
    if !can_be_number(store.sectors(), number) {
        return Ok(refused(alloc, Stat::Io));
    }
    let Some(held) = choose_text(&sets.blocks, 0, sectors, store.sectors()) else {
        return Ok(refused(alloc, Stat::Io));
    };
    let mut plan = Plan::new(alloc, 5)?;
    make_in_place(
        store, &mut plan, number, &held, spot, name, text, wanted, cred, now,
    )?;
    sets.inodes.take(number);
    take_text(&mut sets.blocks, &held);
    Ok(Planned {
        plan,
        reply: Reply::Done,
        freed: none_freed(),
    })
}
