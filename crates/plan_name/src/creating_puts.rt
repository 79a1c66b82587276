// The puts of a creation.

ghost use Rattle.std.specs.Prelude.{◌≡◌, ◌<◌, ◌≤◌, ◌+◌, ◌++◌, ◌∷◌, ℕ, List, [], length, get_or, IfOk, OnOk, if◌then◌else◌};
ghost use Rattle.files_model.specs.Answers.{zeros};
ghost use Rattle.files_model.specs.Files.{Node};
ghost use Rattle.files_model.specs.Space.{size_limit};
ghost use Rattle.files_model.specs.Torn.{Asked};
ghost use Rattle.stable.specs.Counts.{HasCause};
ghost use Rattle.stable.specs.Looked.{Looked};
ghost use Rattle.stable.specs.Puts.{put_all, with_puts};
ghost use Rattle.v7_layout.specs.Written.{AddressesFit};
ghost use Rattle.v7_map.specs.Frame.{Place, frame};
ghost use Rattle.v7_map.specs.Weak.{IsStrong};
ghost use Rattle.v7_strokes.specs.Entries.{entry_sector};
ghost use Rattle.v7_strokes.specs.Inodes.{BlocksFit};
ghost use Rattle.v7_strokes.specs.Over.{slot_from};
ghost use Rattle.v7_strokes.specs.Slots.{PutsSlot};
ghost use Rattle.plan_name.specs.Creating.{Makes, IsPlannedMaking, StandWithin, MapWithin, LaysOut, map_puts, Builds};

use stable::{Failed, Plan, Stable};
use v7_layout::{Inode, Slot};
use v7_read::empty_sector;
use v7_strokes::{Blocks, add_inode, add_longer, add_slot, add_times, planned_sector, with_slot};

/// A new entry of a directory, an inode of this number: slot `index`, counted from 0, which stands in this sector.
#[derive(Clone, Copy)]
pub struct Entry {
    pub directory: u32,
    pub index: u32,
    pub sector: u32,
    pub slot: Slot,
}

/// A block of addresses with its new content.
#[derive(Clone, Copy)]
pub struct Listing {
    pub block: u32,
    pub bytes: [u8; 512],
}

/// What a directory gets that becomes longer by a slot: whether the slot's sector is a new one, the block of addresses and where it stands, if it
/// changes, and the blocks that its inode gives.
#[derive(Clone, Copy)]
pub struct Longer {
    pub fresh: bool,
    pub map: Option<Listing>,
    pub blocks: Blocks,
}

/// Adds the puts of a creation into an empty slot: the new inode, the slot's sector, and the directory's inode with its times. Nothing is put.
pub fn add_in_place<S: Stable>(
    store: &mut S,
    plan: &mut Plan,
    ino: u32,
    inode: &Inode,
    entry: &Entry,
    now: u32,
) -> Result<(), Failed>
    requires empty { plan.old.puts ≡ [] }
    requires room { 3 ≤ plan.old.room }
    requires within { StandWithin (S.sector_count store.old) ino entry.now }
    requires fits { AddressesFit inode.now }
    ensures planned { S.tells → IsStrong (frame (S.image store.old)) → (asked : Asked) (name : List ℕ) (d m : Node) → Makes (S.image store.old) asked now ino inode.now entry.now name d m → entry.now.index < length d.slots → entry.now.sector ≡ entry_sector (S.image store.old) entry.now.directory entry.now.index → OnOk result (IsPlannedMaking (S.image store.old) asked now ino [] plan.new.puts) }
    ensures built { Builds S.Stable store.old store.new 3 plan.old plan.new result }
{
    let _inode = add_inode(store, plan, ino, inode)?;
    let _slot = add_slot(store, plan, entry.sector, entry.index, &entry.slot)?;
    let _times = add_times(store, plan, entry.directory, now)?;
    Ok(())
}

// The sector of a slot, as it will be after the plan so far; zeros where it is new.
fn slot_sector<S: Stable>(
    store: &mut S,
    plan: &Plan,
    sector: u32,
    fresh: bool,
) -> Result<[u8; 512], Failed>
    requires { sector < S.sector_count store.old }
    ensures done { S.tells → IfOk result (λ bytes. bytes ≡ (if fresh then zeros else get_or (put_all plan.now.puts (S.image store.old)) sector [])) }
    ensures cause { HasCause (S.faults store.old) (S.faults store.new) result }
    ensures looked { Looked S.Stable store.old store.new }
{
    if fresh {
        return Ok(empty_sector());
    }
    planned_sector(store, plan, sector)
}

/// Adds the put of a block of addresses, if it changes.
pub fn add_map(plan: &mut Plan, map: &Option<Listing>)
    requires { length plan.old.puts < plan.old.room }
    ensures { plan.new ≡ with_puts plan.old (plan.old.puts ++ map_puts map.now) }
{
    match map {
        Some(listing) => plan.add(listing.block, &listing.bytes),
        None => {}
    }
}

/// Adds the put of the sector of a new slot, which is zeros before where it is a new one, and answers what it holds then. Nothing is put.
pub fn add_new_slot<S: Stable>(
    store: &mut S,
    plan: &mut Plan,
    entry: &Entry,
    fresh: bool,
) -> Result<[u8; 512], Failed>
    requires room { length plan.old.puts < plan.old.room }
    requires place { entry.now.sector < S.sector_count store.old }
    ensures added { IfOk result (λ bytes. plan.new ≡ with_puts plan.old (plan.old.puts ++ (entry.now.sector, bytes) ∷ [])) }
    ensures put { S.tells → IfOk result (λ bytes. PutsSlot (if fresh then zeros else get_or (put_all plan.old.puts (S.image store.old)) entry.now.sector []) entry.now.index bytes (slot_from entry.now.slot)) }
    ensures cause { HasCause (S.faults store.old) (S.faults store.new) result }
    ensures looked { Looked S.Stable store.old store.new }
{
    let sector = slot_sector(store, plan, entry.sector, fresh)?;
    let changed = with_slot(&sector, entry.index, &entry.slot);
    plan.add(entry.sector, &changed);
    Ok(changed)
}

/// Adds the puts of a creation at the end of its directory: the new inode, the slot's sector, the block of addresses if it changes, and the
/// directory's inode, which is longer then. Nothing is put.
pub fn add_at_end<S: Stable>(
    store: &mut S,
    plan: &mut Plan,
    ino: u32,
    inode: &Inode,
    entry: &Entry,
    longer: &Longer,
    now: u32,
) -> Result<(), Failed>
    requires empty { plan.old.puts ≡ [] }
    requires room { 4 ≤ plan.old.room }
    requires within { StandWithin (S.sector_count store.old) ino entry.now × MapWithin (S.sector_count store.old) longer.now }
    requires fits { AddressesFit inode.now × BlocksFit longer.now.blocks }
    ensures planned { S.tells → IsStrong (frame (S.image store.old)) → (asked : Asked) (name : List ℕ) (d m : Node) (target : Place → ℕ) (new : List ℕ) → Makes (S.image store.old) asked now ino inode.now entry.now name d m → entry.now.index ≡ length d.slots → d.size + 16 ≤ size_limit → LaysOut (S.image store.old) entry.now longer.now target new → OnOk result (IsPlannedMaking (S.image store.old) asked now ino new plan.new.puts) }
    ensures built { Builds S.Stable store.old store.new 4 plan.old plan.new result }
{
    let _inode = add_inode(store, plan, ino, inode)?;
    let _slot = add_new_slot(store, plan, entry, longer.fresh)?;
    add_map(plan, &longer.map);
    let _longer = add_longer(store, plan, entry.directory, &longer.blocks, now)?;
    Ok(())
}
