// The plan of a LINK of a free name, by where its entry comes.

ghost use Rattle.std.specs.Prelude.{◌<◌, IfOk};
ghost use Rattle.files_model.specs.declared.call.Call.TheVariants.{Link};
ghost use Rattle.plan_link.specs.Judging.{LinksAtSpot, LinksPastSlots};
ghost use Rattle.plan_name.specs.Creations.{FitsSlot, SpotWithin};
ghost use Rattle.plan_name.specs.Freeing.{IsDoneReply};
ghost use Rattle.plan_name.specs.Planned.{IsPlannedCall, HasShape, TakesOnly};
ghost use Rattle.v7_map.specs.Frame.{frame};
ghost use Rattle.v7_map.specs.Image.{inode_sector};
ghost use Rattle.v7_map.specs.Weak.{IsStrong};
ghost use Rattle.v7_read.specs.Found.{IsFile};
ghost use Rattle.v7_sets.specs.Sets.{AreSetsOf};

use crate::judging::Ends;
use crate::link_puts::{NewLink, add_at_end, add_in_place};
use crate::refusals::judge_entry;
use files_model::{Cred, FileId, Name, Reply, Stat};
use plan_file::PlanFault;
use plan_name::{Planned, Spot, can_be_number, lay_out, none_freed, refused, take_new};
use stable::{Plan, Stable};
use std::alloc::Global;
use v7_map::attributes_of;
use v7_sets::Sets;
use v7_strokes::slot_of;

/// Plans a LINK (RFC 1094 2.2.13) of a free name whose directory has an empty slot: the node's inode with one link more, the slot's sector, and the
/// directory's inode with its times; nothing where it is refused. Nothing is put. All memory that the plan needs is taken here.
pub(crate) fn plan_in_place<S: Stable>(
    alloc: Global,
    store: &mut S,
    sets: &Sets,
    file: FileId,
    ends: &Ends,
    spot: &Spot,
    name: &Name,
    cred: &Cred,
    now: u32,
) -> Result<Planned, PlanFault>
    requires within { (inode_sector file.ino < S.sector_count store.old) × SpotWithin (S.sector_count store.old) spot.now }
    requires named { FitsSlot name.now }
    ensures planned { S.tells → IsStrong (frame (S.image store.old)) → AreSetsOf (S.image store.old) sets.now.blocks sets.now.inodes → IsFile (S.image store.old) file ends.now.node → IsFile (S.image store.old) spot.now.directory ends.now.directory → LinksAtSpot (S.image store.old) file spot.now.directory name.now spot.now → IfOk result (λ r. IsPlannedCall (S.image store.old) (Link file spot.now.directory name.now, cred.now) now sets.now r) }
    ensures shape { HasShape S.Stable store.old store.new 3 IsDoneReply result }
{
    let attr = attributes_of(spot.directory.ino, &ends.directory.inode);
    match judge_entry(&attr, ends.node.inode.nlink, false, &sets.blocks, cred) {
        Some(status) => return Ok(refused(alloc, status)),
        None => {}
    }
    // no volume with nothing to mend has so high a number
    if !can_be_number(store.sectors(), file.ino) {
        return Ok(refused(alloc, Stat::Io));
    }
    let link = NewLink {
        file,
        spot: *spot,
        slot: slot_of(file.ino as u16, name.bytes()),
    };
    let mut plan = Plan::new(alloc, 3)?;
    add_in_place(store, &mut plan, &link, now)?;
    Ok(Planned {
        plan,
        reply: Reply::Done,
        freed: none_freed(),
    })
}

/// Plans a LINK (RFC 1094 2.2.13) of a free name whose directory has no empty slot: the node's inode with one link more, the slot's sector, the block of
/// addresses if it changes, and the directory's inode, which is longer then; nothing where it is refused. Nothing is put. All memory that the plan needs
/// is taken here. The new blocks leave the set of free ones; after a fault the sets are as they were.
pub(crate) fn plan_at_end<S: Stable>(
    alloc: Global,
    store: &mut S,
    sets: &mut Sets,
    file: FileId,
    dir: FileId,
    ends: &Ends,
    name: &Name,
    cred: &Cred,
    now: u32,
) -> Result<Planned, PlanFault>
    requires within { (inode_sector file.ino < S.sector_count store.old) × (inode_sector dir.ino < S.sector_count store.old) }
    requires named { FitsSlot name.now }
    ensures planned { S.tells → IsStrong (frame (S.image store.old)) → AreSetsOf (S.image store.old) sets.old.blocks sets.old.inodes → IsFile (S.image store.old) file ends.now.node → IsFile (S.image store.old) dir ends.now.directory → LinksPastSlots (S.image store.old) file dir name.now → IfOk result (λ r. IsPlannedCall (S.image store.old) (Link file dir name.now, cred.now) now sets.new r) }
    ensures shape { HasShape S.Stable store.old store.new 4 IsDoneReply result }
    ensures takes { TakesOnly sets.old sets.new result }
{
    let directory = &ends.directory.inode;
    let attr = attributes_of(dir.ino, directory);
    match judge_entry(&attr, ends.node.inode.nlink, true, &sets.blocks, cred) {
        Some(status) => return Ok(refused(alloc, status)),
        None => {}
    }
    // no volume with nothing to mend has so high a number
    if !can_be_number(store.sectors(), file.ino) {
        return Ok(refused(alloc, Stat::Io));
    }
    let Some(laid) = lay_out(store, &sets.blocks, directory)? else {
        return Ok(refused(alloc, Stat::Io));
    };
    let spot = Spot {
        directory: dir,
        index: directory.size / 16,
        sector: laid.sector,
    };
    let link = NewLink {
        file,
        spot,
        slot: slot_of(file.ino as u16, name.bytes()),
    };
    let mut plan = Plan::new(alloc, 4)?;
    add_at_end(store, &mut plan, &link, &laid.longer, now)?;
    take_new(&mut sets.blocks, &laid.new);
    Ok(Planned {
        plan,
        reply: Reply::Done,
        freed: none_freed(),
    })
}
