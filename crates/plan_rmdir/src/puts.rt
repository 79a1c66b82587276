// The puts that take a directory away.

ghost use Rattle.std.specs.Prelude.{◌≡◌, ◌<◌, ◌≤◌, ℕ, List, [], length, true, IfOk, OnErr, OnOk};
ghost use Rattle.files_model.specs.Files.{Node};
ghost use Rattle.files_model.specs.declared.attributes.FileId.{FileId};
ghost use Rattle.files_model.specs.declared.credential.Cred.{Cred};
ghost use Rattle.plan_name.specs.Creating.{Builds};
ghost use Rattle.plan_rmdir.specs.Leaving.{Leaves, IsPlannedRmdir, LeavingWithin};
ghost use Rattle.stable.specs.Counts.{HasCause};
ghost use Rattle.stable.specs.Looked.{Looked};
ghost use Rattle.stable.specs.Puts.{put_all, with_put, with_puts};
ghost use Rattle.v7_map.specs.Frame.{frame};
ghost use Rattle.v7_map.specs.Image.{is_inode, inode_at, inode_sector};
ghost use Rattle.v7_map.specs.Plan.{PutsInode};
ghost use Rattle.v7_map.specs.Weak.{IsStrong};
ghost use Rattle.v7_strokes.specs.Inodes.{left_inode};

use stable::{Failed, Plan, Stable};
use v7_layout::Inode;
use v7_strokes::{add_inode, add_slot, add_unlinked, empty_slot, planned_inode};

/// A directory that is taken away: slot `index` of its parent, counted from 0, which stands in this sector, names it.
#[derive(Clone, Copy)]
pub(crate) struct Leaving {
    pub parent: u32,
    pub index: u32,
    pub sector: u32,
    pub directory: u32,
}

/// Adds the put of the inode of a directory that lost a directory: a link less, which was that of the lost one's `..`, and its mtime and ctime now.
/// Answers its sector; after a failure the plan is as before.
fn add_left<S: Stable>(
    store: &mut S,
    plan: &mut Plan,
    ino: u32,
    now: u32,
) -> Result<[u8; 512], Failed>
    requires room { length plan.old.puts < plan.old.room }
    requires place { inode_sector ino < S.sector_count store.old }
    ensures added { IfOk result (λ bytes. plan.new ≡ with_puts plan.old (with_put plan.old.puts (inode_sector ino, bytes))) }
    ensures put { S.tells → is_inode (put_all plan.old.puts (S.image store.old)) ino ≡ true → IfOk result (λ bytes. PutsInode (put_all plan.old.puts (S.image store.old)) ino bytes (left_inode (inode_at (put_all plan.old.puts (S.image store.old)) ino) now)) }
    ensures kept { OnErr result (plan.new ≡ plan.old) }
    ensures cause { HasCause (S.faults store.old) (S.faults store.new) result }
    ensures looked { Looked S.Stable store.old store.new }
{
    let inode = planned_inode(store, plan, ino)?;
    let changed = Inode {
        nlink: inode.nlink.saturating_sub(1),
        mtime: now,
        ctime: now,
        ..inode
    };
    add_inode(store, plan, ino, &changed)
}

/// Adds the puts of an RMDIR: the slot's sector, then the parent's inode with a link less and its times, and the directory's own, which ends, in rising
/// number; both are one put where they stand in one sector. Nothing is put.
pub(crate) fn add_leaving<S: Stable>(
    store: &mut S,
    plan: &mut Plan,
    leaving: &Leaving,
    now: u32,
) -> Result<(), Failed>
    requires empty { plan.old.puts ≡ [] }
    requires room { 3 ≤ plan.old.room }
    requires within { LeavingWithin (S.sector_count store.old) leaving.now }
    ensures planned { S.tells → IsStrong (frame (S.image store.old)) → (dir : FileId) (name : List ℕ) (cred : Cred) (d n : Node) → Leaves (S.image store.old) dir name cred d n leaving.now → OnOk result (IsPlannedRmdir (S.image store.old) dir name cred now leaving.now plan.new.puts) }
    ensures built { Builds S.Stable store.old store.new 3 plan.old plan.new result }
{
    let _slot = add_slot(store, plan, leaving.sector, leaving.index, &empty_slot())?;
    if leaving.parent < leaving.directory {
        let _parent = add_left(store, plan, leaving.parent, now)?;
        let _own = add_unlinked(store, plan, leaving.directory, true, now)?;
        return Ok(());
    }
    let _own = add_unlinked(store, plan, leaving.directory, true, now)?;
    let _parent = add_left(store, plan, leaving.parent, now)?;
    Ok(())
}
