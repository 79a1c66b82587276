// The puts of a LINK.

ghost use Rattle.std.specs.Prelude.{◌≡◌, ◌<◌, ◌≤◌, ℕ, List, [], length, OnOk};
ghost use Rattle.files_model.specs.Files.{Node};
ghost use Rattle.files_model.specs.declared.call.Call.TheVariants.{Link};
ghost use Rattle.files_model.specs.declared.credential.Cred.{Cred};
ghost use Rattle.plan_link.specs.Links.{Links, IsPlannedLink, entry_of};
ghost use Rattle.plan_name.specs.Creating.{StandWithin, MapWithin, LaysOut, Builds};
ghost use Rattle.v7_map.specs.Frame.{Place, frame};
ghost use Rattle.v7_map.specs.Weak.{IsStrong};
ghost use Rattle.v7_strokes.specs.Entries.{entry_sector};
ghost use Rattle.v7_strokes.specs.Inodes.{BlocksFit};

use crate::linked::add_linked;
use files_model::FileId;
use plan_name::{Entry, Longer, Spot, add_map, add_new_slot};
use stable::{Failed, Plan, Stable};
use v7_layout::Slot;
use v7_strokes::{add_longer, add_slot, add_times};

/// A new name of a file: where its slot stands, and what the slot holds.
#[derive(Clone, Copy)]
pub(crate) struct NewLink {
    pub file: FileId,
    pub spot: Spot,
    pub slot: Slot,
}

// The entry of a new name.
fn entry_of(link: &NewLink) -> Entry
    ensures { result ≡ entry_of link.now }
{
    Entry {
        directory: link.spot.directory.ino,
        index: link.spot.index,
        sector: link.spot.sector,
        slot: link.slot,
    }
}

/// Adds the puts of a LINK into an empty slot: the node's inode with one link more, the slot's sector, and the directory's inode with its times. Nothing
/// is put.
pub(crate) fn add_in_place<S: Stable>(
    store: &mut S,
    plan: &mut Plan,
    link: &NewLink,
    now: u32,
) -> Result<(), Failed>
    requires empty { plan.old.puts ≡ [] }
    requires room { 3 ≤ plan.old.room }
    requires within { StandWithin (S.sector_count store.old) link.now.file.ino (entry_of link.now) }
    ensures planned { S.tells → IsStrong (frame (S.image store.old)) → (name : List ℕ) (cred : Cred) (n d : Node) → Links (S.image store.old) link.now name cred now n d → link.now.spot.index < length d.slots → link.now.spot.sector ≡ entry_sector (S.image store.old) link.now.spot.directory.ino link.now.spot.index → OnOk result (IsPlannedLink (S.image store.old) (Link link.now.file link.now.spot.directory name, cred) now [] plan.new.puts) }
    ensures built { Builds S.Stable store.old store.new 3 plan.old plan.new result }
{
    let _node = add_linked(store, plan, link.file.ino, now)?;
    let _slot = add_slot(store, plan, link.spot.sector, link.spot.index, &link.slot)?;
    let _times = add_times(store, plan, link.spot.directory.ino, now)?;
    Ok(())
}

/// Adds the puts of a LINK at the end of its directory: the node's inode with one link more, the slot's sector, the block of addresses if it changes, and
/// the directory's inode, which is longer then. Nothing is put.
pub(crate) fn add_at_end<S: Stable>(
    store: &mut S,
    plan: &mut Plan,
    link: &NewLink,
    longer: &Longer,
    now: u32,
) -> Result<(), Failed>
    requires empty { plan.old.puts ≡ [] }
    requires room { 4 ≤ plan.old.room }
    requires within { StandWithin (S.sector_count store.old) link.now.file.ino (entry_of link.now) × MapWithin (S.sector_count store.old) longer.now }
    requires fits { BlocksFit longer.now.blocks }
    ensures planned { S.tells → IsStrong (frame (S.image store.old)) → (name : List ℕ) (cred : Cred) (n d : Node) (target : Place → ℕ) (new : List ℕ) → Links (S.image store.old) link.now name cred now n d → link.now.spot.index ≡ length d.slots → LaysOut (S.image store.old) (entry_of link.now) longer.now target new → OnOk result (IsPlannedLink (S.image store.old) (Link link.now.file link.now.spot.directory name, cred) now new plan.new.puts) }
    ensures built { Builds S.Stable store.old store.new 4 plan.old plan.new result }
{
    let _node = add_linked(store, plan, link.file.ino, now)?;
    let _slot = add_new_slot(store, plan, &entry_of(link), longer.fresh)?;
    add_map(plan, &longer.map);
    let _longer = add_longer(store, plan, link.spot.directory.ino, &longer.blocks, now)?;
    Ok(())
}
