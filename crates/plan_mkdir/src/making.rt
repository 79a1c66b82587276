// A new directory as its call makes it: its inode, its puts, and what is answered.

ghost use Rattle.std.specs.Prelude.{◌≡◌, ◌<◌, ◌≤◌, ◌+◌, ◌-◌, ◌^◌, ℕ, List, [], ◌∷◌, true, IfOk};
ghost use Rattle.files_model.specs.Files.{Node};
ghost use Rattle.files_model.specs.NameRows.{new_directory};
ghost use Rattle.files_model.specs.declared.call.Call.TheVariants.{Mkdir};
ghost use Rattle.files_model.specs.declared.reply.Reply.TheVariants as reply;
ghost use Rattle.plan_mkdir.specs.Inodes.{IsDirectoryInode};
ghost use Rattle.plan_mkdir.specs.Making.{NewWithin, SpotWithin, Makes, IsInside, IsAtEnd};
ghost use Rattle.plan_name.specs.Created.{IsHandleReply};
ghost use Rattle.plan_name.specs.Creating.{IsPlannedMaking, MapWithin, made_answer, Builds};
ghost use Rattle.plan_name.specs.Creations.{FitsSlot};
ghost use Rattle.stable.specs.Counts.{HasCause};
ghost use Rattle.stable.specs.Looked.{Looked};
ghost use Rattle.v7_layout.specs.Written.{AddressesFit};
ghost use Rattle.v7_map.specs.Frame.{Place, frame};
ghost use Rattle.v7_map.specs.Image.{is_inode, inode_at};
ghost use Rattle.v7_map.specs.Stored.{stored_attr};
ghost use Rattle.v7_map.specs.Weak.{IsStrong};
ghost use Rattle.v7_strokes.specs.Inodes.{BlocksFit};

use crate::building::{add_at_end, add_in_place};
use crate::directories::{NewDirectory, new_directory};
use files_model::{Cred, FileId, Name, Reply, Sattr};
use plan_name::{Longer, Spot};
use stable::{Failed, Plan, Stable};
use v7_layout::Inode;
use v7_map::attributes_of;
use v7_strokes::{planned_inode, slot_of};

// The inode of a new directory, whose generation is one above that of the free inode of its number.
fn next_inode<S: Stable>(
    store: &mut S,
    plan: &Plan,
    new: &NewDirectory,
    wanted: &Sattr,
    cred: &Cred,
    now: u32,
) -> Result<Inode, Failed>
    requires empty { plan.now.puts ≡ [] }
    requires within { NewWithin (S.sector_count store.old) new.now }
    ensures made { S.tells → is_inode (S.image store.old) new.now.ino ≡ true → (inode_at (S.image store.old) new.now.ino).generation < 2 ^ 32 - 1 → IfOk result (λ inode. IsDirectoryInode inode wanted.now cred.now now ((inode_at (S.image store.old) new.now.ino).generation + 1) new.now.block) }
    ensures fits { IfOk result (λ inode. AddressesFit inode) }
    ensures cause { HasCause (S.faults store.old) (S.faults store.new) result }
    ensures looked { Looked S.Stable store.old store.new }
{
    let free = planned_inode(store, plan, new.ino)?;
    let generation = free.generation.saturating_add(1);
    Ok(new_directory(wanted, cred, now, generation, new.block))
}

// What answers a call that made a node with this inode: its handle and attributes.
fn made_reply(ino: u32, inode: &Inode) -> Reply
    ensures { result ≡ reply.Handle (record { ino = ino; generation = inode.now.generation }) (stored_attr ino inode.now) }
{
    let file = FileId {
        ino,
        generation: inode.generation,
    };
    let attr = attributes_of(ino, inode);
    Reply::Handle { file, attr }
}

/// Plans a new directory whose name takes an empty slot (RFC 1094 2.2.15): its first sector, its inode, the slot, and the parent's inode with one link
/// more and its times. Answers its handle and attributes. Nothing is put.
pub(crate) fn make_in_place<S: Stable>(
    store: &mut S,
    plan: &mut Plan,
    new: &NewDirectory,
    spot: &Spot,
    name: &Name,
    wanted: &Sattr,
    cred: &Cred,
    now: u32,
) -> Result<Reply, Failed>
    requires plan { (plan.old.puts ≡ []) × (4 ≤ plan.old.room) }
    requires within { NewWithin (S.sector_count store.old) new.now × SpotWithin (S.sector_count store.old) spot.now }
    requires named { FitsSlot name.now }
    ensures planned { S.tells → IsStrong (frame (S.image store.old)) → (d : Node) → Makes (S.image store.old) spot.now new.now name.now wanted.now cred.now now d → IsInside (S.image store.old) spot.now d → IfOk result (λ r. IsPlannedMaking (S.image store.old) (Mkdir spot.now.directory name.now wanted.now, cred.now) now new.now.ino (new.now.block ∷ []) plan.new.puts × (r ≡ made_answer (S.image store.old) new.now.ino (new_directory wanted.now cred.now new.now.ino spot.now.directory.ino now))) }
    ensures built { Builds S.Stable store.old store.new 4 plan.old plan.new result }
    ensures form { IfOk result IsHandleReply }
{
    let inode = next_inode(store, plan, new, wanted, cred, now)?;
    let slot = slot_of(new.ino as u16, name.bytes());
    add_in_place(store, plan, new, &inode, spot, &slot, now)?;
    Ok(made_reply(new.ino, &inode))
}

/// Plans a new directory whose name comes at its parent's end (RFC 1094 2.2.15): its first sector, its inode, the slot, the block of addresses if it
/// changes, and the parent's inode, which is longer then and has one link more. Answers its handle and attributes. Nothing is put.
pub(crate) fn make_at_end<S: Stable>(
    store: &mut S,
    plan: &mut Plan,
    new: &NewDirectory,
    spot: &Spot,
    longer: &Longer,
    name: &Name,
    wanted: &Sattr,
    cred: &Cred,
    now: u32,
) -> Result<Reply, Failed>
    requires plan { (plan.old.puts ≡ []) × (5 ≤ plan.old.room) }
    requires within { NewWithin (S.sector_count store.old) new.now × SpotWithin (S.sector_count store.old) spot.now }
    requires longer { MapWithin (S.sector_count store.old) longer.now × BlocksFit longer.now.blocks }
    requires named { FitsSlot name.now }
    ensures planned { S.tells → IsStrong (frame (S.image store.old)) → (d : Node) (target : Place → ℕ) (taken : List ℕ) → Makes (S.image store.old) spot.now new.now name.now wanted.now cred.now now d → IsAtEnd (S.image store.old) spot.now new.now.block longer.now d target taken → IfOk result (λ r. IsPlannedMaking (S.image store.old) (Mkdir spot.now.directory name.now wanted.now, cred.now) now new.now.ino (new.now.block ∷ taken) plan.new.puts × (r ≡ made_answer (S.image store.old) new.now.ino (new_directory wanted.now cred.now new.now.ino spot.now.directory.ino now))) }
    ensures built { Builds S.Stable store.old store.new 5 plan.old plan.new result }
    ensures form { IfOk result IsHandleReply }
{
    let inode = next_inode(store, plan, new, wanted, cred, now)?;
    let slot = slot_of(new.ino as u16, name.bytes());
    add_at_end(store, plan, new, &inode, spot, &slot, longer, now)?;
    Ok(made_reply(new.ino, &inode))
}
