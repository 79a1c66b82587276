// The inode of a parent that has one directory more.

ghost use Rattle.std.specs.Prelude.{◌≡◌, ◌<◌, ◌+◌, ◌^◌, length, true, IfOk};
ghost use Rattle.longer_plans.specs.LongerParent.{longer_parent};
ghost use Rattle.stable.specs.Counts.{HasCause};
ghost use Rattle.stable.specs.Looked.{Looked};
ghost use Rattle.stable.specs.Puts.{put_all, with_put, with_puts};
ghost use Rattle.v7_layout.specs.Written.{AddressesFit};
ghost use Rattle.v7_map.specs.Image.{is_inode, inode_at, inode_sector};
ghost use Rattle.v7_map.specs.Plan.{PutsInode};
ghost use Rattle.v7_strokes.specs.Inodes.{parent_inode, BlocksFit};

use stable::{Failed, Plan, Stable};
use v7_layout::Inode;
use v7_strokes::{Blocks, add_inode, longer_inode, planned_inode};

// A parent's inode with one link more, and its mtime and ctime now.
fn parent_inode(inode: &Inode, now: u32) -> Inode
    requires { AddressesFit inode.now }
    ensures parent { inode.now.nlink + 1 < 2 ^ 16 → result ≡ parent_inode inode.now now }
    ensures fits { AddressesFit result }
{
    Inode {
        nlink: inode.nlink.saturating_add(1),
        mtime: now,
        ctime: now,
        ..*inode
    }
}

// A parent's inode longer by one slot, with these blocks, one link more, and its mtime and ctime now.
fn longer_parent(inode: &Inode, blocks: &Blocks, now: u32) -> Inode
    requires inode { AddressesFit inode.now }
    requires blocks { BlocksFit blocks.now }
    ensures parent { inode.now.nlink + 1 < 2 ^ 16 → inode.now.size + 16 < 2 ^ 32 → result ≡ longer_parent inode.now blocks.now.direct blocks.now.single now }
    ensures fits { AddressesFit result }
{
    let longer = longer_inode(inode, blocks, now);
    Inode {
        nlink: inode.nlink.saturating_add(1),
        ..longer
    }
}

/// Adds the put of a parent's inode with one link more, and its mtime and ctime now. A parent of 65,535 links, which none has, keeps them. Answers its
/// sector.
pub(crate) fn add_parent<S: Stable>(
    store: &mut S,
    plan: &mut Plan,
    ino: u32,
    now: u32,
) -> Result<[u8; 512], Failed>
    requires room { length plan.old.puts < plan.old.room }
    requires place { inode_sector ino < S.sector_count store.old }
    ensures added { IfOk result (λ bytes. plan.new ≡ with_puts plan.old (with_put plan.old.puts (inode_sector ino, bytes))) }
    ensures put { S.tells → is_inode (put_all plan.old.puts (S.image store.old)) ino ≡ true → (inode_at (put_all plan.old.puts (S.image store.old)) ino).nlink + 1 < 2 ^ 16 → IfOk result (λ bytes. PutsInode (put_all plan.old.puts (S.image store.old)) ino bytes (parent_inode (inode_at (put_all plan.old.puts (S.image store.old)) ino) now)) }
    ensures cause { HasCause (S.faults store.old) (S.faults store.new) result }
    ensures looked { Looked S.Stable store.old store.new }
{
    let inode = planned_inode(store, plan, ino)?;
    let changed = parent_inode(&inode, now);
    add_inode(store, plan, ino, &changed)
}

/// Adds the put of a parent's inode that makes it longer by one slot, with these blocks, one link more, and its mtime and ctime now. Answers its sector.
pub(crate) fn add_longer_parent<S: Stable>(
    store: &mut S,
    plan: &mut Plan,
    ino: u32,
    blocks: &Blocks,
    now: u32,
) -> Result<[u8; 512], Failed>
    requires room { length plan.old.puts < plan.old.room }
    requires place { inode_sector ino < S.sector_count store.old }
    requires fits { BlocksFit blocks.now }
    ensures added { IfOk result (λ bytes. plan.new ≡ with_puts plan.old (with_put plan.old.puts (inode_sector ino, bytes))) }
    ensures put { S.tells → is_inode (put_all plan.old.puts (S.image store.old)) ino ≡ true → (inode_at (put_all plan.old.puts (S.image store.old)) ino).nlink + 1 < 2 ^ 16 → (inode_at (put_all plan.old.puts (S.image store.old)) ino).size + 16 < 2 ^ 32 → IfOk result (λ bytes. PutsInode (put_all plan.old.puts (S.image store.old)) ino bytes (longer_parent (inode_at (put_all plan.old.puts (S.image store.old)) ino) blocks.now.direct blocks.now.single now)) }
    ensures cause { HasCause (S.faults store.old) (S.faults store.new) result }
    ensures looked { Looked S.Stable store.old store.new }
{
    let inode = planned_inode(store, plan, ino)?;
    let changed = longer_parent(&inode, blocks, now);
    add_inode(store, plan, ino, &changed)
}
