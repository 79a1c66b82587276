// Puts that are added to a plan, where inodes of one sector that follow each other are one put: each reads a sector as it will be after the plan so far, and changes one record in it.

ghost use Rattle.std.specs.Prelude.{◌≡◌, ◌<◌, ◌+◌, ◌^◌, ◌++◌, ◌∷◌, [], length, true, IfOk, OnErr, if◌then◌else◌};
ghost use Rattle.stable.specs.Counts.{HasCause};
ghost use Rattle.stable.specs.Looked.{Looked};
ghost use Rattle.stable.specs.Puts.{put_all, with_put, with_puts};
ghost use Rattle.v7_layout.specs.Written.{AddressesFit};
ghost use Rattle.v7_map.specs.Image.{sector_at, is_inode, inode_at, inode_sector};
ghost use Rattle.v7_map.specs.Plan.{PutsInode};
ghost use Rattle.v7_strokes.specs.Inodes.{ended_inode, unlinked_inode, timed_inode, longer_inode, BlocksFit};
ghost use Rattle.v7_strokes.specs.Over.{slot_from};
ghost use Rattle.v7_strokes.specs.Slots.{PutsSlot};

use crate::over::planned_sector;
use crate::records::{Blocks, longer_inode, unlinked_inode, with_inode, with_slot};
use stable::{Failed, Plan, Stable};
use v7_layout::{Inode, Slot};
use v7_read::{inode_in, inode_sector_of};

/// The inode of this number as it will be after the plan so far. Nothing is changed.
pub fn planned_inode<S: Stable>(store: &mut S, plan: &Plan, ino: u32) -> Result<Inode, Failed>
    requires { inode_sector ino < S.sector_count store.old }
    ensures inode { S.tells → is_inode (put_all plan.now.puts (S.image store.old)) ino ≡ true → IfOk result (λ inode. inode ≡ inode_at (put_all plan.now.puts (S.image store.old)) ino) }
    ensures fits { IfOk result (λ inode. AddressesFit inode) }
    ensures cause { HasCause (S.faults store.old) (S.faults store.new) result }
    ensures looked { Looked S.Stable store.old store.new }
{
    let sector = planned_sector(store, plan, inode_sector_of(ino))?;
    Ok(inode_in(&sector, ino))
}

/// Adds the put of an inode in place of the one of this number, and answers its sector. Where the plan's last put is of that sector, both are one.
/// After a failure the plan is as before.
pub fn add_inode<S: Stable>(
    store: &mut S,
    plan: &mut Plan,
    ino: u32,
    inode: &Inode,
) -> Result<[u8; 512], Failed>
    requires room { length plan.old.puts < plan.old.room }
    requires place { inode_sector ino < S.sector_count store.old }
    requires fits { AddressesFit inode.now }
    ensures added { IfOk result (λ bytes. plan.new ≡ with_puts plan.old (with_put plan.old.puts (inode_sector ino, bytes))) }
    ensures put { S.tells → is_inode (put_all plan.old.puts (S.image store.old)) ino ≡ true → IfOk result (λ bytes. PutsInode (put_all plan.old.puts (S.image store.old)) ino bytes inode.now) }
    ensures kept { OnErr result (plan.new ≡ plan.old) }
    ensures cause { HasCause (S.faults store.old) (S.faults store.new) result }
    ensures looked { Looked S.Stable store.old store.new }
{
    let place = inode_sector_of(ino);
    let sector = planned_sector(store, plan, place)?;
    let changed = with_inode(&sector, ino, inode);
    plan.add_or_replace(place, &changed);
    Ok(changed)
}

/// Adds the put of a slot in place of slot `index` of a directory, which stands in this sector, and answers the sector. After a failure the plan
/// is as before.
pub fn add_slot<S: Stable>(
    store: &mut S,
    plan: &mut Plan,
    place: u32,
    index: u32,
    slot: &Slot,
) -> Result<[u8; 512], Failed>
    requires room { length plan.old.puts < plan.old.room }
    requires place { place < S.sector_count store.old }
    ensures added { IfOk result (λ bytes. plan.new ≡ with_puts plan.old (plan.old.puts ++ (place, bytes) ∷ [])) }
    ensures put { S.tells → IfOk result (λ bytes. PutsSlot (sector_at (put_all plan.old.puts (S.image store.old)) place) index bytes (slot_from slot.now)) }
    ensures kept { OnErr result (plan.new ≡ plan.old) }
    ensures cause { HasCause (S.faults store.old) (S.faults store.new) result }
    ensures looked { Looked S.Stable store.old store.new }
{
    let sector = planned_sector(store, plan, place)?;
    let changed = with_slot(&sector, index, slot);
    plan.add(place, &changed);
    Ok(changed)
}

/// Adds the put of an inode with its mtime and ctime now, as a directory has them whose slots changed. Answers its sector; after a failure the plan
/// is as before.
pub fn add_times<S: Stable>(
    store: &mut S,
    plan: &mut Plan,
    ino: u32,
    now: u32,
) -> Result<[u8; 512], Failed>
    requires room { length plan.old.puts < plan.old.room }
    requires place { inode_sector ino < S.sector_count store.old }
    ensures added { IfOk result (λ bytes. plan.new ≡ with_puts plan.old (with_put plan.old.puts (inode_sector ino, bytes))) }
    ensures put { S.tells → is_inode (put_all plan.old.puts (S.image store.old)) ino ≡ true → IfOk result (λ bytes. PutsInode (put_all plan.old.puts (S.image store.old)) ino bytes (timed_inode (inode_at (put_all plan.old.puts (S.image store.old)) ino) now)) }
    ensures kept { OnErr result (plan.new ≡ plan.old) }
    ensures cause { HasCause (S.faults store.old) (S.faults store.new) result }
    ensures looked { Looked S.Stable store.old store.new }
{
    let inode = planned_inode(store, plan, ino)?;
    let changed = Inode {
        mtime: now,
        ctime: now,
        ..inode
    };
    add_inode(store, plan, ino, &changed)
}

/// Adds the put of the inode of a node that lost a name: it ends where that was its last, and else has a link less and its ctime now. Answers its
/// sector; after a failure the plan is as before.
pub fn add_unlinked<S: Stable>(
    store: &mut S,
    plan: &mut Plan,
    ino: u32,
    last: bool,
    now: u32,
) -> Result<[u8; 512], Failed>
    requires room { length plan.old.puts < plan.old.room }
    requires place { inode_sector ino < S.sector_count store.old }
    ensures added { IfOk result (λ bytes. plan.new ≡ with_puts plan.old (with_put plan.old.puts (inode_sector ino, bytes))) }
    ensures put { S.tells → is_inode (put_all plan.old.puts (S.image store.old)) ino ≡ true → IfOk result (λ bytes. PutsInode (put_all plan.old.puts (S.image store.old)) ino bytes (if last then ended_inode (inode_at (put_all plan.old.puts (S.image store.old)) ino).generation else unlinked_inode (inode_at (put_all plan.old.puts (S.image store.old)) ino) now)) }
    ensures kept { OnErr result (plan.new ≡ plan.old) }
    ensures cause { HasCause (S.faults store.old) (S.faults store.new) result }
    ensures looked { Looked S.Stable store.old store.new }
{
    let inode = planned_inode(store, plan, ino)?;
    add_inode(store, plan, ino, &unlinked_inode(&inode, last, now))
}

/// Adds the put of a directory's inode that makes it longer by one slot, with its mtime and ctime now, and these blocks. A size of 2 ^ 32 - 16 or
/// more, which no directory has, stays. Answers its sector; after a failure the plan is as before.
pub fn add_longer<S: Stable>(
    store: &mut S,
    plan: &mut Plan,
    ino: u32,
    blocks: &Blocks,
    now: u32,
) -> Result<[u8; 512], Failed>
    requires room { length plan.old.puts < plan.old.room }
    requires place { inode_sector ino < S.sector_count store.old }
    requires fits { BlocksFit blocks.now }
    ensures added { IfOk result (λ bytes. plan.new ≡ with_puts plan.old (with_put plan.old.puts (inode_sector ino, bytes))) }
    ensures put { S.tells → is_inode (put_all plan.old.puts (S.image store.old)) ino ≡ true → (inode_at (put_all plan.old.puts (S.image store.old)) ino).size + 16 < 2 ^ 32 → IfOk result (λ bytes. PutsInode (put_all plan.old.puts (S.image store.old)) ino bytes (longer_inode (inode_at (put_all plan.old.puts (S.image store.old)) ino) blocks.now.direct blocks.now.single now)) }
    ensures kept { OnErr result (plan.new ≡ plan.old) }
    ensures cause { HasCause (S.faults store.old) (S.faults store.new) result }
    ensures looked { Looked S.Stable store.old store.new }
{
    let inode = planned_inode(store, plan, ino)?;
    add_inode(store, plan, ino, &longer_inode(&inode, blocks, now))
}
