// The plan of a CREATE of a free name whose directory has an empty slot.

ghost use Rattle.std.specs.Prelude.{◌≡◌, ◌≢◌, ◌<◌, ◌≤◌, length, true, false, All, IfOk};
ghost use Rattle.files_model.specs.Files.{Node};
ghost use Rattle.files_model.specs.Names.{place_for};
ghost use Rattle.files_model.specs.declared.call.Call.TheVariants.{Create};
ghost use Rattle.plan_name.specs.Created.{CanBeNumber, IsFreeName, IsHandleReply};
ghost use Rattle.plan_name.specs.Judging.{IsTold};
ghost use Rattle.plan_name.specs.Planned.{IsPlannedCall, HasShape, TakesOnly};
ghost use Rattle.v7_map.specs.Image.{inode_sector};
ghost use Rattle.v7_map.specs.View.{view};
ghost use Rattle.v7_strokes.specs.Entries.{entry_sector};

use crate::judging::judge_new;
use crate::making::{Spot, make_in_place};
use crate::planned::{Planned, none_freed, refused};
use files_model::{Attr, Cred, Name, Sattr, Stat};
use plan_file::PlanFault;
use stable::{Plan, Stable};
use std::alloc::Global;
use v7_read::inode_sector_of;
use v7_sets::Sets;

/// Whether a store of so many sectors may have an inode of this number, which a slot can name.
pub fn can_be_number(sectors: u32, ino: u32) -> bool
    ensures yes { result ≡ true → CanBeNumber sectors ino }
    ensures no { result ≡ false → CanBeNumber sectors ino → ⊥ }
{
    if ino == 0 {
        return false;
    }
    if ino > 65_535 {
        return false;
    }
    inode_sector_of(ino) < sectors
}

/// Plans a CREATE (RFC 1094 2.2.10) of a free name whose directory has an empty slot, by the directory's attributes: the new inode, the slot's sector, and
/// the directory's inode with its times; nothing where it is refused. Nothing is put. All memory that the plan needs is taken here. The new i-number
/// leaves the set of free ones; after a fault the sets are as they were.
pub fn plan_new_in_place<S: Stable>(
    alloc: Global,
    store: &mut S,
    sets: &mut Sets,
    directory: &Attr,
    spot: &Spot,
    name: &Name,
    wanted: &Sattr,
    cred: &Cred,
    now: u32,
) -> Result<Planned, PlanFault>
    requires within { (inode_sector spot.now.directory.ino < S.sector_count store.old) × (spot.now.sector < S.sector_count store.old) × (2 ≤ spot.now.sector) }
    requires named { (length name.now ≤ 14) × All (λ byte. byte ≢ 0) name.now }
    ensures planned { S.tells → (d : Node) → IsTold (S.image store.old) spot.now.directory.ino d directory.now false sets.old.blocks sets.old.inodes → IsFreeName (view (S.image store.old)) spot.now.directory name.now wanted.now d → spot.now.index ≡ place_for d.slots → spot.now.sector ≡ entry_sector (S.image store.old) spot.now.directory.ino spot.now.index → IfOk result (λ r. IsPlannedCall (S.image store.old) (Create spot.now.directory name.now wanted.now, cred.now) now sets.new r) }
    ensures shape { HasShape S.Stable store.old store.new 3 IsHandleReply result }
    ensures takes { TakesOnly sets.old sets.new result }
{
    let number = match judge_new(directory, false, sets, wanted, cred) {
        Ok(number) => number,
        Err(status) => return Ok(refused(alloc, status)),
    };
    if !can_be_number(store.sectors(), number) {
        return Ok(refused(alloc, Stat::Io));
    }
    let mut plan = Plan::new(alloc, 3)?;
    let reply = make_in_place(store, &mut plan, number, spot, name, wanted, cred, now)?;
    sets.inodes.take(number);
    Ok(Planned {
        plan,
        reply,
        freed: none_freed(),
    })
}
