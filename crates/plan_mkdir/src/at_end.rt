// The plan of a MKDIR of a free name whose parent has no empty slot.

ghost use Rattle.std.specs.Prelude.{◌≡◌, true, IfOk};
ghost use Rattle.files_model.specs.Answers.{attr_of};
ghost use Rattle.files_model.specs.Files.{Node};
ghost use Rattle.files_model.specs.declared.call.Call.TheVariants.{Mkdir};
ghost use Rattle.plan_mkdir.specs.Free.{IsFreeName};
ghost use Rattle.plan_name.specs.Created.{IsHandleReply};
ghost use Rattle.plan_name.specs.Creations.{FitsSlot};
ghost use Rattle.plan_name.specs.Judging.{IsTold};
ghost use Rattle.plan_name.specs.Planned.{IsPlannedCall, HasShape, TakesOnly};
ghost use Rattle.v7_map.specs.Image.{inode_at};
ghost use Rattle.v7_map.specs.View.{view};

use crate::judging::judge_new;
use crate::making::make_at_end;
use crate::spare::{choose_new, past_new};
use files_model::{Cred, FileId, Name, Sattr, Stat};
use plan_file::PlanFault;
use plan_name::{Planned, Spot, lay_out, none_freed, refused, take_new};
use stable::{Plan, Stable};
use std::alloc::Global;
use v7_layout::Inode;
use v7_map::attributes_of;
use v7_sets::Sets;

/// Plans a MKDIR (RFC 1094 2.2.15) of a free name whose parent has no empty slot, by the parent's inode: the new directory's first sector, its inode, the
/// slot's sector, the block of addresses if it changes, and the parent's inode, which is longer then and has one link more; nothing where it is refused.
/// The parent's new blocks are the lowest free ones, and the new directory's is the next one. Nothing is put. All memory that the plan needs is taken here.
/// These blocks and the i-number leave the sets of what is free; after a fault they are as they were.
pub fn plan_at_end<S: Stable>(
    alloc: Global,
    store: &mut S,
    sets: &mut Sets,
    directory: FileId,
    inode: &Inode,
    name: &Name,
    wanted: &Sattr,
    cred: &Cred,
    now: u32,
) -> Result<Planned, PlanFault>
    requires named { FitsSlot name.now }
    ensures planned { S.tells → (d : Node) → IsTold (S.image store.old) directory.ino d (attr_of directory.ino d) true sets.old.blocks sets.old.inodes → inode.now ≡ inode_at (S.image store.old) directory.ino → IsFreeName (view (S.image store.old)) directory name.now d → IfOk result (λ r. IsPlannedCall (S.image store.old) (Mkdir directory name.now wanted.now, cred.now) now sets.new r) }
    ensures shape { HasShape S.Stable store.old store.new 5 IsHandleReply result }
    ensures takes { TakesOnly sets.old sets.new result }
{
    let attr = attributes_of(directory.ino, inode);
    let number = match judge_new(&attr, true, sets, cred) {
        Ok(number) => number,
        Err(status) => return Ok(refused(alloc, status)),
    };
    let Some(laid) = lay_out(store, &sets.blocks, inode)? else {
        return Ok(refused(alloc, Stat::Io));
    };
    let from = past_new(&laid.new);
    let sectors = store.sectors();
    let Some(new) = choose_new(&sets.blocks, number, directory.ino, from, sectors) else {
        return Ok(refused(alloc, Stat::Io));
    };
    let spot = Spot {
        directory,
        index: inode.size / 16,
        sector: laid.sector,
    };
    let mut plan = Plan::new(alloc, 5)?;
    let reply = make_at_end(
        store,
        &mut plan,
        &new,
        &spot,
        &laid.longer,
        name,
        wanted,
        cred,
        now,
    )?;
    sets.inodes.take(new.ino);
    sets.blocks.take(new.block);
    take_new(&mut sets.blocks, &laid.new);
    Ok(Planned {
        plan,
        reply,
        freed: none_freed(),
    })
}
