// A new link as its call makes it: its inode and its puts.

ghost use Rattle.std.specs.Prelude.{◌≡◌, ◌≢◌, ◌<◌, ◌≤◌, ◌+◌, ◌-◌, ◌++◌, ◌^◌, ℕ, List, [], true, IfOk, OnOk};
ghost use Rattle.files_model.specs.Files.{Node};
ghost use Rattle.files_model.specs.NameRows.{new_link};
ghost use Rattle.files_model.specs.declared.call.Call.TheVariants.{Symlink};
ghost use Rattle.longer_plans.specs.SymlinkPuts.{held_inode};
ghost use Rattle.plan_name.specs.Creating.{IsPlannedMaking, MapWithin, Builds};
ghost use Rattle.plan_name.specs.Creations.{FitsSlot, SpotWithin};
ghost use Rattle.plan_symlink.specs.Making.{IsEmptyAt, IsNextAt, MayLink};
ghost use Rattle.plan_symlink.specs.TextBlocks.{AreWithin, text_list};
ghost use Rattle.stable.specs.Counts.{HasCause};
ghost use Rattle.stable.specs.Looked.{Looked};
ghost use Rattle.v7_layout.specs.Written.{AddressesFit};
ghost use Rattle.v7_map.specs.Frame.{Place, frame};
ghost use Rattle.v7_map.specs.Image.{is_inode, inode_at, inode_sector};
ghost use Rattle.v7_map.specs.Weak.{IsStrong};
ghost use Rattle.v7_strokes.specs.Inodes.{BlocksFit};

use crate::new_link::new_link;
use crate::puts::{add_at_end, add_in_place};
use crate::text_blocks::TextBlocks;
use files_model::{Cred, Name, Sattr, Text};
use plan_name::{Entry, Longer, Spot};
use stable::{Failed, Plan, Stable};
use v7_layout::Inode;
use v7_strokes::{planned_inode, slot_of};

// The inode of a new link, whose generation is one above that of the free inode of this number.
fn next_inode<S: Stable>(
    store: &mut S,
    plan: &Plan,
    ino: u32,
    text: &Text,
    held: &TextBlocks,
    wanted: &Sattr,
    cred: &Cred,
    now: u32,
) -> Result<Inode, Failed>
    requires empty { plan.now.puts ≡ [] }
    requires place { inode_sector ino < S.sector_count store.old }
    requires within { AreWithin (S.sector_count store.old) (text_list held.now) }
    ensures made { S.tells → is_inode (S.image store.old) ino ≡ true → (inode_at (S.image store.old) ino).generation < 2 ^ 32 - 1 → IfOk result (λ inode. inode ≡ held_inode (new_link wanted.now cred.now text.now now) ((inode_at (S.image store.old) ino).generation + 1) (text_list held.now)) }
    ensures fits { IfOk result (λ inode. AddressesFit inode) }
    ensures cause { HasCause (S.faults store.old) (S.faults store.new) result }
    ensures looked { Looked S.Stable store.old store.new }
{
    let free = planned_inode(store, plan, ino)?;
    let generation = free.generation.saturating_add(1);
    Ok(new_link(text, held, wanted, cred, now, generation))
}

/// Plans a new link of this i-number whose name takes an empty slot (RFC 1094 2.2.14): the sectors of its text in these blocks, its inode, the slot, and the
/// directory's inode with its times. Nothing is put.
pub(crate) fn make_in_place<S: Stable>(
    store: &mut S,
    plan: &mut Plan,
    ino: u32,
    held: &TextBlocks,
    spot: &Spot,
    name: &Name,
    text: &Text,
    wanted: &Sattr,
    cred: &Cred,
    now: u32,
) -> Result<(), Failed>
    requires plan { (plan.old.puts ≡ []) × (5 ≤ plan.old.room) }
    requires number { (ino ≢ 0) × (ino < 65536) × (inode_sector ino < S.sector_count store.old) }
    requires within { SpotWithin (S.sector_count store.old) spot.now × AreWithin (S.sector_count store.old) (text_list held.now) }
    requires named { FitsSlot name.now }
    ensures planned { S.tells → IsStrong (frame (S.image store.old)) → (d : Node) → MayLink (S.image store.old) spot.now.directory name.now text.now wanted.now cred.now now d ino (text_list held.now) → IsEmptyAt (S.image store.old) spot.now.directory.ino spot.now.index spot.now.sector d → OnOk result (IsPlannedMaking (S.image store.old) (Symlink spot.now.directory name.now text.now wanted.now, cred.now) now ino (text_list held.now) plan.new.puts) }
    ensures built { Builds S.Stable store.old store.new 5 plan.old plan.new result }
{
    let inode = next_inode(store, plan, ino, text, held, wanted, cred, now)?;
    let entry = Entry {
        directory: spot.directory.ino,
        index: spot.index,
        sector: spot.sector,
        slot: slot_of(ino as u16, name.bytes()),
    };
    add_in_place(store, plan, text, held, ino, &inode, &entry, now)
}

/// Plans a new link of this i-number whose name comes at its directory's end (RFC 1094 2.2.14): the sectors of its text in these blocks, its inode, the
/// slot, the block of addresses if it changes, and the directory's inode, which is longer then. Nothing is put.
pub(crate) fn make_at_end<S: Stable>(
    store: &mut S,
    plan: &mut Plan,
    ino: u32,
    held: &TextBlocks,
    spot: &Spot,
    longer: &Longer,
    name: &Name,
    text: &Text,
    wanted: &Sattr,
    cred: &Cred,
    now: u32,
) -> Result<(), Failed>
    requires plan { (plan.old.puts ≡ []) × (6 ≤ plan.old.room) }
    requires number { (ino ≢ 0) × (ino < 65536) × (inode_sector ino < S.sector_count store.old) }
    requires within { SpotWithin (S.sector_count store.old) spot.now × AreWithin (S.sector_count store.old) (text_list held.now) }
    requires longer { MapWithin (S.sector_count store.old) longer.now × BlocksFit longer.now.blocks }
    requires named { FitsSlot name.now }
    ensures planned { S.tells → IsStrong (frame (S.image store.old)) → (d : Node) (target : Place → ℕ) (new : List ℕ) → MayLink (S.image store.old) spot.now.directory name.now text.now wanted.now cred.now now d ino (text_list held.now) → IsNextAt (S.image store.old) spot.now.directory.ino spot.now.index spot.now.sector longer.now d target new (text_list held.now) → OnOk result (IsPlannedMaking (S.image store.old) (Symlink spot.now.directory name.now text.now wanted.now, cred.now) now ino (text_list held.now ++ new) plan.new.puts) }
    ensures built { Builds S.Stable store.old store.new 6 plan.old plan.new result }
{
    let inode = next_inode(store, plan, ino, text, held, wanted, cred, now)?;
    let entry = Entry {
        directory: spot.directory.ino,
        index: spot.index,
        sector: spot.sector,
        slot: slot_of(ino as u16, name.bytes()),
    };
    add_at_end(store, plan, text, held, ino, &inode, &entry, longer, now)
}
