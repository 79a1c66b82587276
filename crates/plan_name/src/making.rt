// A new file in an empty slot of its directory.

ghost use Rattle.std.specs.Prelude.{◌≡◌, ◌≢◌, ◌<◌, ◌≤◌, ◌+◌, ◌-◌, ◌^◌, [], length, true, IfOk, All};
ghost use Rattle.files_model.specs.Files.{Node};
ghost use Rattle.files_model.specs.Names.{new_file};
ghost use Rattle.files_model.specs.Torn.{Asked};
ghost use Rattle.files_model.specs.declared.reply.Reply.TheVariants as reply;
ghost use Rattle.plan_name.specs.Created.{IsHandleReply};
ghost use Rattle.plan_name.specs.Creating.{FitsIn, IsPlannedMaking, made_answer, Builds};
ghost use Rattle.stable.specs.Counts.{HasCause};
ghost use Rattle.stable.specs.Looked.{Looked};
ghost use Rattle.v7_layout.specs.Written.{AddressesFit};
ghost use Rattle.v7_map.specs.Frame.{frame};
ghost use Rattle.v7_map.specs.Image.{is_inode, inode_at, inode_sector};
ghost use Rattle.v7_map.specs.Stored.{stored_attr};
ghost use Rattle.v7_map.specs.Weak.{IsStrong};
ghost use Rattle.v7_strokes.specs.Inodes.{made_inode};

use crate::creating_puts::{Entry, add_in_place};
use crate::new_node::new_file;
use files_model::{Cred, FileId, Name, Reply, Sattr};
use stable::{Failed, Plan, Stable};
use v7_layout::Inode;
use v7_map::attributes_of;
use v7_strokes::{planned_inode, slot_of};

/// An empty slot of a directory: its number, counted from 0, and the sector where it stands.
#[derive(Clone, Copy)]
pub struct Spot {
    pub directory: FileId,
    pub index: u32,
    pub sector: u32,
}

/// The inode of a new file, whose generation is one above that of the free inode of this number.
pub(crate) fn next_inode<S: Stable>(
    store: &mut S,
    plan: &Plan,
    ino: u32,
    wanted: &Sattr,
    cred: &Cred,
    now: u32,
) -> Result<Inode, Failed>
    requires empty { plan.now.puts ≡ [] }
    requires place { inode_sector ino < S.sector_count store.old }
    ensures made { S.tells → is_inode (S.image store.old) ino ≡ true → (inode_at (S.image store.old) ino).generation < 2 ^ 32 - 1 → IfOk result (λ inode. inode ≡ made_inode (new_file wanted.now cred.now now) ((inode_at (S.image store.old) ino).generation + 1)) }
    ensures fits { IfOk result (λ inode. AddressesFit inode) }
    ensures cause { HasCause (S.faults store.old) (S.faults store.new) result }
    ensures looked { Looked S.Stable store.old store.new }
{
    let free = planned_inode(store, plan, ino)?;
    let generation = free.generation.saturating_add(1);
    Ok(new_file(wanted, cred, now, generation))
}

/// The answer that has the handle and attributes of a file with this inode.
pub(crate) fn handle_reply(ino: u32, inode: &Inode) -> Reply
    ensures { result ≡ reply.Handle (record { ino = ino; generation = inode.now.generation }) (stored_attr ino inode.now) }
{
    let file = FileId {
        ino,
        generation: inode.generation,
    };
    let attr = attributes_of(ino, inode);
    Reply::Handle { file, attr }
}

/// Plans a new file of this i-number in an empty slot (RFC 1094 2.2.10): its inode, the slot, and the directory's inode with its times. Answers its handle
/// and attributes. Nothing is put.
pub fn make_in_place<S: Stable>(
    store: &mut S,
    plan: &mut Plan,
    ino: u32,
    spot: &Spot,
    name: &Name,
    wanted: &Sattr,
    cred: &Cred,
    now: u32,
) -> Result<Reply, Failed>
    requires empty { plan.old.puts ≡ [] }
    requires room { 3 ≤ plan.old.room }
    requires number { (ino ≢ 0) × (ino < 65536) }
    requires within { (inode_sector ino < S.sector_count store.old) × (inode_sector spot.now.directory.ino < S.sector_count store.old) × (spot.now.sector < S.sector_count store.old) × (2 ≤ spot.now.sector) }
    requires named { (length name.now ≤ 14) × All (λ byte. byte ≢ 0) name.now }
    ensures planned { S.tells → IsStrong (frame (S.image store.old)) → (asked : Asked) (d : Node) → FitsIn (S.image store.old) asked now spot.now.directory.ino ino spot.now.index spot.now.sector name.now wanted.now cred.now d → IfOk result (λ r. IsPlannedMaking (S.image store.old) asked now ino [] plan.new.puts × (r ≡ made_answer (S.image store.old) ino (new_file wanted.now cred.now now))) }
    ensures built { Builds S.Stable store.old store.new 3 plan.old plan.new result }
    ensures form { IfOk result IsHandleReply }
{
    let inode = next_inode(store, plan, ino, wanted, cred, now)?;
    let entry = Entry {
        directory: spot.directory.ino,
        index: spot.index,
        sector: spot.sector,
        slot: slot_of(ino as u16, name.bytes()),
    };
    add_in_place(store, plan, ino, &inode, &entry, now)?;
    Ok(handle_reply(ino, &inode))
}
