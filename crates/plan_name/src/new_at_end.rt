// The plan of a CREATE of a free name whose directory has no empty slot.

ghost use Rattle.std.specs.Prelude.{◌≡◌, ◌≢◌, ◌<◌, ◌≤◌, length, true, All, IfOk};
ghost use Rattle.files_model.specs.Answers.{attr_of};
ghost use Rattle.files_model.specs.Files.{Node};
ghost use Rattle.files_model.specs.declared.call.Call.TheVariants.{Create};
ghost use Rattle.plan_name.specs.Created.{IsFreeName, IsHandleReply};
ghost use Rattle.plan_name.specs.Judging.{IsTold};
ghost use Rattle.plan_name.specs.Planned.{IsPlannedCall, HasShape, TakesOnly};
ghost use Rattle.v7_map.specs.Image.{inode_at, inode_sector};
ghost use Rattle.v7_map.specs.View.{view};

use crate::judging::judge_new;
use crate::laying_out::{lay_out, take_new};
use crate::making::Spot;
use crate::making_at_end::make_at_end;
use crate::new_in_place::can_be_number;
use crate::planned::{Planned, none_freed, refused};
use files_model::{Cred, FileId, Name, Sattr, Stat};
use plan_file::PlanFault;
use stable::{Plan, Stable};
use std::alloc::Global;
use v7_layout::Inode;
use v7_map::attributes_of;
use v7_sets::Sets;

/// Plans a CREATE (RFC 1094 2.2.10) of a free name whose directory has no empty slot, by the directory's inode: the new inode, the slot's sector, the
/// block of addresses if it changes, and the directory's inode, which is longer then; nothing where it is refused. Nothing is put. All memory that the
/// plan needs is taken here. The new i-number and blocks leave the sets of what is free; after a fault the sets are as they were.
pub fn plan_new_at_end<S: Stable>(
    alloc: Global,
    store: &mut S,
    sets: &mut Sets,
    directory: FileId,
    inode: &Inode,
    name: &Name,
    wanted: &Sattr,
    cred: &Cred,
    now: u32,
) -> Result<Planned, PlanFault>
    requires within { inode_sector directory.ino < S.sector_count store.old }
    requires named { (length name.now ≤ 14) × All (λ byte. byte ≢ 0) name.now }
    ensures planned { S.tells → (d : Node) → IsTold (S.image store.old) directory.ino d (attr_of directory.ino d) true sets.old.blocks sets.old.inodes → inode.now ≡ inode_at (S.image store.old) directory.ino → IsFreeName (view (S.image store.old)) directory name.now wanted.now d → IfOk result (λ r. IsPlannedCall (S.image store.old) (Create directory name.now wanted.now, cred.now) now sets.new r) }
    ensures shape { HasShape S.Stable store.old store.new 4 IsHandleReply result }
    ensures takes { TakesOnly sets.old sets.new result }
{
    let attr = attributes_of(directory.ino, inode);
    let number = match judge_new(&attr, true, sets, wanted, cred) {
        Ok(number) => number,
        Err(status) => return Ok(refused(alloc, status)),
    };
    if !can_be_number(store.sectors(), number) {
        return Ok(refused(alloc, Stat::Io));
    }
    let Some(laid) = lay_out(store, &sets.blocks, inode)? else {
        return Ok(refused(alloc, Stat::Io));
    };
    let spot = Spot {
        directory,
        index: inode.size / 16,
        sector: laid.sector,
    };
    let mut plan = Plan::new(alloc, 4)?;
    let reply = make_at_end(
        store,
        &mut plan,
        number,
        &spot,
        &laid.longer,
        name,
        wanted,
        cred,
        now,
    )?;
    sets.inodes.take(number);
    take_new(&mut sets.blocks, &laid.new);
    Ok(Planned {
        plan,
        reply,
        freed: none_freed(),
    })
}
