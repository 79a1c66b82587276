// The puts of a new link.

ghost use Rattle.std.specs.Prelude.{◌≡◌, ◌<◌, ◌≤◌, ◌+◌, ◌++◌, ℕ, List, [], length, true, IfOk, OnOk};
ghost use Rattle.files_model.specs.Files.{Node};
ghost use Rattle.files_model.specs.declared.attributes.FileId.{FileId};
ghost use Rattle.files_model.specs.declared.attributes.Sattr.{Sattr};
ghost use Rattle.files_model.specs.declared.call.Call.TheVariants.{Symlink};
ghost use Rattle.files_model.specs.declared.credential.Cred.{Cred};
ghost use Rattle.longer_plans.specs.SymlinkPuts.{text_puts};
ghost use Rattle.plan_name.specs.Creating.{IsPlannedMaking, LaysOut, MapWithin, StandWithin, Builds};
ghost use Rattle.plan_symlink.specs.Making.{AreOthers, MakesLink};
ghost use Rattle.plan_symlink.specs.TextBlocks.{AreWithin, text_list};
ghost use Rattle.stable.specs.Counts.{HasCause};
ghost use Rattle.stable.specs.Looked.{Looked};
ghost use Rattle.stable.specs.Puts.{put_all, with_put, with_puts};
ghost use Rattle.v7_layout.specs.Written.{AddressesFit};
ghost use Rattle.v7_map.specs.Frame.{Place, frame};
ghost use Rattle.v7_map.specs.Image.{is_inode, inode_sector};
ghost use Rattle.v7_map.specs.Plan.{PutsInode};
ghost use Rattle.v7_map.specs.Weak.{IsStrong};
ghost use Rattle.v7_strokes.specs.Entries.{entry_sector};
ghost use Rattle.v7_strokes.specs.Inodes.{BlocksFit};

use crate::text_blocks::TextBlocks;
use crate::text_puts::add_text;
use files_model::Text;
use plan_name::{Entry, Longer, add_map, add_new_slot};
use stable::{Failed, Plan, Stable};
use v7_layout::Inode;
use v7_strokes::{add_inode, add_longer, add_slot, add_times};

// Adds the puts of a link's text and of its inode, and answers the inode's sector.
fn add_link<S: Stable>(
    store: &mut S,
    plan: &mut Plan,
    text: &Text,
    held: &TextBlocks,
    ino: u32,
    inode: &Inode,
) -> Result<[u8; 512], Failed>
    requires room { length plan.old.puts + 3 ≤ plan.old.room }
    requires place { inode_sector ino < S.sector_count store.old }
    requires fits { AddressesFit inode.now }
    ensures added { IfOk result (λ bytes. plan.new ≡ with_puts plan.old (with_put (plan.old.puts ++ text_puts text.now 0 (text_list held.now)) (inode_sector ino, bytes))) }
    ensures put { S.tells → is_inode (put_all (plan.old.puts ++ text_puts text.now 0 (text_list held.now)) (S.image store.old)) ino ≡ true → IfOk result (λ bytes. PutsInode (put_all (plan.old.puts ++ text_puts text.now 0 (text_list held.now)) (S.image store.old)) ino bytes inode.now) }
    ensures cause { HasCause (S.faults store.old) (S.faults store.new) result }
    ensures looked { Looked S.Stable store.old store.new }
{
    add_text(plan, text.bytes(), held);
    add_inode(store, plan, ino, inode)
}

/// Adds the puts of a new link whose name takes an empty slot: the sectors of its text, its inode, the slot's sector, and the directory's inode with its
/// times. Nothing is put.
pub(crate) fn add_in_place<S: Stable>(
    store: &mut S,
    plan: &mut Plan,
    text: &Text,
    held: &TextBlocks,
    ino: u32,
    inode: &Inode,
    entry: &Entry,
    now: u32,
) -> Result<(), Failed>
    requires plan { (plan.old.puts ≡ []) × (5 ≤ plan.old.room) }
    requires within { StandWithin (S.sector_count store.old) ino entry.now × AreWithin (S.sector_count store.old) (text_list held.now) }
    requires fits { AddressesFit inode.now }
    ensures planned { S.tells → IsStrong (frame (S.image store.old)) → (dir : FileId) (name : List ℕ) (wanted : Sattr) (cred : Cred) (d : Node) → MakesLink (S.image store.old) dir name text.now wanted cred now d ino (text_list held.now) inode.now entry.now → entry.now.index < length d.slots → entry.now.sector ≡ entry_sector (S.image store.old) entry.now.directory entry.now.index → OnOk result (IsPlannedMaking (S.image store.old) (Symlink dir name text.now wanted, cred) now ino (text_list held.now) plan.new.puts) }
    ensures built { Builds S.Stable store.old store.new 5 plan.old plan.new result }
{
    let _inode = add_link(store, plan, text, held, ino, inode)?;
    let _slot = add_slot(store, plan, entry.sector, entry.index, &entry.slot)?;
    let _times = add_times(store, plan, entry.directory, now)?;
    Ok(())
}

/// Adds the puts of a new link whose name comes at its directory's end: the sectors of its text, its inode, the slot's sector, the block of addresses if it
/// changes, and the directory's inode, which is longer then. Nothing is put.
pub(crate) fn add_at_end<S: Stable>(
    store: &mut S,
    plan: &mut Plan,
    text: &Text,
    held: &TextBlocks,
    ino: u32,
    inode: &Inode,
    entry: &Entry,
    longer: &Longer,
    now: u32,
) -> Result<(), Failed>
    requires plan { (plan.old.puts ≡ []) × (6 ≤ plan.old.room) }
    requires within { StandWithin (S.sector_count store.old) ino entry.now × AreWithin (S.sector_count store.old) (text_list held.now) }
    requires longer { MapWithin (S.sector_count store.old) longer.now × BlocksFit longer.now.blocks }
    requires fits { AddressesFit inode.now }
    ensures planned { S.tells → IsStrong (frame (S.image store.old)) → (dir : FileId) (name : List ℕ) (wanted : Sattr) (cred : Cred) (d : Node) (target : Place → ℕ) (new : List ℕ) → MakesLink (S.image store.old) dir name text.now wanted cred now d ino (text_list held.now) inode.now entry.now → entry.now.index ≡ length d.slots → LaysOut (S.image store.old) entry.now longer.now target new → AreOthers new (text_list held.now) → OnOk result (IsPlannedMaking (S.image store.old) (Symlink dir name text.now wanted, cred) now ino (text_list held.now ++ new) plan.new.puts) }
    ensures built { Builds S.Stable store.old store.new 6 plan.old plan.new result }
{
    let _inode = add_link(store, plan, text, held, ino, inode)?;
    let _slot = add_new_slot(store, plan, entry, longer.fresh)?;
    add_map(plan, &longer.map);
    let _longer = add_longer(store, plan, entry.directory, &longer.blocks, now)?;
    Ok(())
}
