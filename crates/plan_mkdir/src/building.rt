// The puts of a new directory.

ghost use Rattle.std.specs.Prelude.{◌≡◌, ◌≤◌, ℕ, List, [], ◌∷◌, OnOk};
ghost use Rattle.files_model.specs.Files.{Node};
ghost use Rattle.files_model.specs.declared.attributes.Sattr.{Sattr};
ghost use Rattle.files_model.specs.declared.call.Call.TheVariants.{Mkdir};
ghost use Rattle.files_model.specs.declared.credential.Cred.{Cred};
ghost use Rattle.plan_mkdir.specs.Making.{NewWithin, SpotWithin, Makes, HasParts, IsInside, IsAtEnd};
ghost use Rattle.plan_name.specs.Creating.{IsPlannedMaking, MapWithin, Builds};
ghost use Rattle.v7_layout.specs.Written.{AddressesFit};
ghost use Rattle.v7_map.specs.Frame.{Place, frame};
ghost use Rattle.v7_map.specs.Weak.{IsStrong};
ghost use Rattle.v7_strokes.specs.Inodes.{BlocksFit};

use crate::directories::{NewDirectory, dots_sector};
use crate::parents::{add_longer_parent, add_parent};
use plan_name::{Entry, Longer, Spot, add_map, add_new_slot};
use stable::{Failed, Plan, Stable};
use v7_layout::{Inode, Slot};
use v7_strokes::{add_inode, add_slot};

/// Adds the puts of a new directory whose name takes an empty slot: its first sector, its inode, the slot's sector, and the parent's inode with one link
/// more and its times. Nothing is put.
pub(crate) fn add_in_place<S: Stable>(
    store: &mut S,
    plan: &mut Plan,
    new: &NewDirectory,
    inode: &Inode,
    spot: &Spot,
    slot: &Slot,
    now: u32,
) -> Result<(), Failed>
    requires plan { (plan.old.puts ≡ []) × (4 ≤ plan.old.room) }
    requires within { NewWithin (S.sector_count store.old) new.now × SpotWithin (S.sector_count store.old) spot.now }
    requires fits { AddressesFit inode.now }
    ensures planned { S.tells → IsStrong (frame (S.image store.old)) → (name : List ℕ) (wanted : Sattr) (cred : Cred) (d : Node) → Makes (S.image store.old) spot.now new.now name wanted cred now d → HasParts (S.image store.old) spot.now new.now name wanted cred now inode.now slot.now → IsInside (S.image store.old) spot.now d → OnOk result (IsPlannedMaking (S.image store.old) (Mkdir spot.now.directory name wanted, cred) now new.now.ino (new.now.block ∷ []) plan.new.puts) }
    ensures built { Builds S.Stable store.old store.new 4 plan.old plan.new result }
{
    let dots = dots_sector(new.ino as u16, spot.directory.ino as u16);
    plan.add(new.block, &dots);
    let _inode = add_inode(store, plan, new.ino, inode)?;
    let _slot = add_slot(store, plan, spot.sector, spot.index, slot)?;
    let _parent = add_parent(store, plan, spot.directory.ino, now)?;
    Ok(())
}

/// Adds the puts of a new directory whose name comes at its parent's end: its first sector, its inode, the slot's sector, the block of addresses if it
/// changes, and the parent's inode, which is longer then and has one link more. Nothing is put.
pub(crate) fn add_at_end<S: Stable>(
    store: &mut S,
    plan: &mut Plan,
    new: &NewDirectory,
    inode: &Inode,
    spot: &Spot,
    slot: &Slot,
    longer: &Longer,
    now: u32,
) -> Result<(), Failed>
    requires plan { (plan.old.puts ≡ []) × (5 ≤ plan.old.room) }
    requires within { NewWithin (S.sector_count store.old) new.now × SpotWithin (S.sector_count store.old) spot.now }
    requires longer { MapWithin (S.sector_count store.old) longer.now × BlocksFit longer.now.blocks }
    requires fits { AddressesFit inode.now }
    ensures planned { S.tells → IsStrong (frame (S.image store.old)) → (name : List ℕ) (wanted : Sattr) (cred : Cred) (d : Node) (target : Place → ℕ) (taken : List ℕ) → Makes (S.image store.old) spot.now new.now name wanted cred now d → HasParts (S.image store.old) spot.now new.now name wanted cred now inode.now slot.now → IsAtEnd (S.image store.old) spot.now new.now.block longer.now d target taken → OnOk result (IsPlannedMaking (S.image store.old) (Mkdir spot.now.directory name wanted, cred) now new.now.ino (new.now.block ∷ taken) plan.new.puts) }
    ensures built { Builds S.Stable store.old store.new 5 plan.old plan.new result }
{
    let dots = dots_sector(new.ino as u16, spot.directory.ino as u16);
    plan.add(new.block, &dots);
    let _inode = add_inode(store, plan, new.ino, inode)?;
    let entry = Entry {
        directory: spot.directory.ino,
        index: spot.index,
        sector: spot.sector,
        slot: *slot,
    };
    let _slot = add_new_slot(store, plan, &entry, longer.fresh)?;
    add_map(plan, &longer.map);
    let _parent = add_longer_parent(store, plan, spot.directory.ino, &longer.blocks, now)?;
    Ok(())
}
