// The plan of a SYMLINK of a free name whose directory has no empty slot.

ghost use Rattle.std.specs.Prelude.{◌≡◌, ◌<◌, true, IfOk};
ghost use Rattle.files_model.specs.Answers.{attr_of};
ghost use Rattle.files_model.specs.Files.{Node};
ghost use Rattle.files_model.specs.declared.call.Call.TheVariants.{Symlink};
ghost use Rattle.plan_name.specs.Creations.{FitsSlot};
ghost use Rattle.plan_name.specs.Freeing.{IsDoneReply};
ghost use Rattle.plan_name.specs.Judging.{IsTold};
ghost use Rattle.plan_name.specs.Planned.{IsPlannedCall, HasShape, TakesOnly};
ghost use Rattle.plan_symlink.specs.Judging.{IsFreeName};
ghost use Rattle.v7_map.specs.Image.{inode_at, inode_sector};
ghost use Rattle.v7_map.specs.View.{view};

use crate::judging::judge_link;
use crate::making::make_at_end;
use crate::text_blocks::{choose_text, take_text, text_sectors};
use files_model::{Cred, FileId, Name, Reply, Sattr, Stat, Text};
use plan_file::PlanFault;
use plan_name::{Planned, Spot, can_be_number, lay_out, none_freed, past_new, refused, take_new};
use stable::{Plan, Stable};
use std::alloc::Global;
use v7_layout::Inode;
use v7_map::attributes_of;
use v7_sets::Sets;

/// Plans a SYMLINK (RFC 1094 2.2.14) of a free name whose directory has no empty slot, by the directory's inode: the sectors of the text, the new inode, the
/// slot's sector, the block of addresses if it changes, and the directory's inode, which is longer then; nothing where it is refused. The directory takes
/// the lowest free blocks, and the text the next ones. Nothing is put. All memory that the plan needs is taken here. The new i-number and blocks leave the
/// sets of what is free; after a fault the sets are as they were.
pub(crate) fn plan_link_at_end<S: Stable>(
    alloc: Global,
    store: &mut S,
    sets: &mut Sets,
    directory: FileId,
    inode: &Inode,
    name: &Name,
    text: &Text,
    wanted: &Sattr,
    cred: &Cred,
    now: u32,
) -> Result<Planned, PlanFault>
    requires within { inode_sector directory.ino < S.sector_count store.old }
    requires named { FitsSlot name.now }
    ensures planned { S.tells → (d : Node) → IsTold (S.image store.old) directory.ino d (attr_of directory.ino d) true sets.old.blocks sets.old.inodes → inode.now ≡ inode_at (S.image store.old) directory.ino → IsFreeName (view (S.image store.old)) directory name.now d → IfOk result (λ r. IsPlannedCall (S.image store.old) (Symlink directory name.now text.now wanted.now, cred.now) now sets.new r) }
    ensures shape { HasShape S.Stable store.old store.new 6 IsDoneReply result }
    ensures takes { TakesOnly sets.old sets.new result }
{
    let attr = attributes_of(directory.ino, inode);
    let sectors = text_sectors(text);
    let number = match judge_link(&attr, true, sectors, sets, cred) {
        Ok(number) => number,
        Err(status) => return Ok(refused(alloc, status)),
    };
    if !can_be_number(store.sectors(), number) {
        return Ok(refused(alloc, Stat::Io));
    }
    let Some(laid) = lay_out(store, &sets.blocks, inode)? else {
        return Ok(refused(alloc, Stat::Io));
    };
    let rest = past_new(&laid.new);
    let Some(held) = choose_text(&sets.blocks, rest, sectors, store.sectors()) else {
        return Ok(refused(alloc, Stat::Io));
    };
    let spot = Spot {
        directory,
        index: inode.size / 16,
        sector: laid.sector,
    };
    let mut plan = Plan::new(alloc, 6)?;
    make_at_end(
        store,
        &mut plan,
        number,
        &held,
        &spot,
        &laid.longer,
        name,
        text,
        wanted,
        cred,
        now,
    )?;
    sets.inodes.take(number);
    take_text(&mut sets.blocks, &held);
    take_new(&mut sets.blocks, &laid.new);
    Ok(Planned {
        plan,
        reply: Reply::Done,
        freed: none_freed(),
    })
}
