// The inode of a node that gets a name more.

ghost use Rattle.std.specs.Prelude.{◌≡◌, ◌<◌, ◌+◌, length, true, IfOk, OnErr};
ghost use Rattle.stable.specs.Counts.{HasCause};
ghost use Rattle.stable.specs.Looked.{Looked};
ghost use Rattle.stable.specs.Puts.{put_all, with_put, with_puts};
ghost use Rattle.v7_layout.specs.Written.{AddressesFit};
ghost use Rattle.v7_map.specs.Image.{is_inode, inode_at, inode_sector};
ghost use Rattle.v7_map.specs.Plan.{PutsInode};
ghost use Rattle.v7_strokes.specs.Inodes.{linked_inode};

use stable::{Failed, Plan, Stable};
use v7_layout::Inode;
use v7_strokes::{add_inode, planned_inode};

// An inode with one link more and its ctime now. A count of 65,535, which no node has that may get a name, stays.
fn linked_inode(inode: &Inode, now: u32) -> Inode
    requires { AddressesFit inode.now }
    ensures linked { inode.now.nlink + 1 < 65536 → result ≡ linked_inode inode.now now }
    ensures fits { AddressesFit result }
{
    Inode {
        nlink: inode.nlink.saturating_add(1),
        ctime: now,
        ..*inode
    }
}

/// Adds the put of the inode of a node that gets a name more: it has one link more, and its ctime now. A count of 65,535, which no node has that may get
/// a name, stays. Answers its sector; after a failure the plan is as before.
pub(crate) fn add_linked<S: Stable>(
    store: &mut S,
    plan: &mut Plan,
    ino: u32,
    now: u32,
) -> Result<[u8; 512], Failed>
    requires room { length plan.old.puts < plan.old.room }
    requires place { inode_sector ino < S.sector_count store.old }
    ensures added { IfOk result (λ bytes. plan.new ≡ with_puts plan.old (with_put plan.old.puts (inode_sector ino, bytes))) }
    ensures put { S.tells → is_inode (put_all plan.old.puts (S.image store.old)) ino ≡ true → (inode_at (put_all plan.old.puts (S.image store.old)) ino).nlink + 1 < 65536 → IfOk result (λ bytes. PutsInode (put_all plan.old.puts (S.image store.old)) ino bytes (linked_inode (inode_at (put_all plan.old.puts (S.image store.old)) ino) now)) }
    ensures kept { OnErr result (plan.new ≡ plan.old) }
    ensures cause { HasCause (S.faults store.old) (S.faults store.new) result }
    ensures looked { Looked S.Stable store.old store.new }
{
    let inode = planned_inode(store, plan, ino)?;
    add_inode(store, plan, ino, &linked_inode(&inode, now))
}
