// Records that are made, ended, and replaced in their sectors.

ghost use Rattle.std.specs.Prelude.{◌≡◌, ◌≢◌, ◌<◌, ◌≤◌, ◌+◌, ◌-◌, ◌^◌, ℕ, length, All, None, Some, if◌then◌else◌};
ghost use Rattle.v7_layout.specs.Written.{AddressesFit};
ghost use Rattle.v7_strokes.specs.Inodes.{ended_inode, unlinked_inode, longer_inode, BlocksFit};
ghost use Rattle.v7_strokes.specs.Over.{ReplacesInode, PutsAddress, slot_from};
ghost use Rattle.v7_strokes.specs.Slots.{PutsSlot};

use byteorder::{ByteOrder, LittleEndian};
use v7_layout::{Inode, Record, Slot};
use v7_read::inode_offset_of;

/// How many bytes of name a slot has (filsys(5)).
const MOST_NAME: usize = 14;

/// The sector with that inode in place of the one of this number.
pub fn with_inode(sector: &[u8; 512], ino: u32, inode: &Inode) -> [u8; 512]
    requires { AddressesFit inode.now }
    ensures { ReplacesInode sector.now ino inode.now result }
{
    let mut bytes = [0; 64];
    inode.write(&mut bytes);
    let at = inode_offset_of(ino);
    let mut changed = *sector;
    changed[at..at + 64].copy_from_slice(&bytes);
    changed
}

/// The sector of a directory with that slot in place of slot `index`, which is counted from the directory's first.
pub fn with_slot(sector: &[u8; 512], index: u32, slot: &Slot) -> [u8; 512]
    ensures { PutsSlot sector.now index result (slot_from slot.now) }
{
    let mut bytes = [0; 16];
    slot.write(&mut bytes);
    let at = 16 * (index as usize % 32);
    let mut changed = *sector;
    changed[at..at + 16].copy_from_slice(&bytes);
    changed
}

/// The block of addresses with another address of sector `index` of a body, one past the first ten.
pub fn with_address(block: &[u8; 512], index: u32, address: u32) -> [u8; 512]
    requires indirect { 10 ≤ index }
    requires within { index < 138 }
    ensures { PutsAddress block.now (index - 10) address result }
{
    let mut bytes = [0; 4];
    LittleEndian::write_u32(&mut bytes, address);
    let at = 4 * (index as usize - 10);
    let mut changed = *block;
    changed[at..at + 4].copy_from_slice(&bytes);
    changed
}

/// A slot that names nothing.
pub fn empty_slot() -> Slot
    ensures { slot_from result ≡ None }
{
    Slot {
        ino: 0,
        name: [0; MOST_NAME],
    }
}

/// The slot that names an inode: a name of at most 14 bytes, none of them 0.
pub fn slot_of(ino: u16, name: &[u8]) -> Slot
    requires number { ino ≢ 0 }
    requires fits { length name.now ≤ 14 }
    requires whole { All (λ byte. byte ≢ 0) name.now }
    ensures { slot_from result ≡ Some (ino, name.now) }
{
    let mut bytes = [0; MOST_NAME];
    bytes[..name.len()].copy_from_slice(name);
    Slot { ino, name: bytes }
}

/// A free inode, which keeps the generation of the node that ended.
#[tactic(auto, unfolding(crate::specs::Inodes::ended_inode))]
pub fn ended_inode(inode: &Inode) -> Inode
    ensures inode { result ≡ ended_inode inode.now.generation }
    ensures fits { AddressesFit result }
{
    Inode {
        mode: 0,
        nlink: 0,
        uid: 0,
        gid: 0,
        size: 0,
        direct: [0; 10],
        single: 0,
        double: 0,
        generation: inode.generation,
        atime: 0,
        mtime: 0,
        ctime: 0,
    }
}

/// The inode of a node that lost a name: a free one where it was the last, and else one with a link less and its ctime now.
pub fn unlinked_inode(inode: &Inode, last: bool, now: u32) -> Inode
    requires { AddressesFit inode.now }
    ensures inode { result ≡ (if last then ended_inode inode.now.generation else unlinked_inode inode.now now) }
    ensures fits { AddressesFit result }
{
    if last {
        return ended_inode(inode);
    }
    Inode {
        nlink: inode.nlink.saturating_sub(1),
        ctime: now,
        ..*inode
    }
}

/// The blocks that an inode gives itself: those of its first ten sectors, and its block of addresses. 0 is none.
#[derive(Clone, Copy)]
pub struct Blocks {
    pub direct: [u32; 10],
    pub single: u32,
}

/// A directory's inode longer by one slot, with these blocks, and its mtime and ctime now.
pub fn longer_inode(inode: &Inode, blocks: &Blocks, now: u32) -> Inode
    requires inode { AddressesFit inode.now }
    requires blocks { BlocksFit blocks.now }
    ensures longer { inode.now.size + 16 < 2 ^ 32 → result ≡ longer_inode inode.now blocks.now.direct blocks.now.single now }
    ensures fits { AddressesFit result }
{
    Inode {
        size: inode.size.saturating_add(16),
        direct: blocks.direct,
        single: blocks.single,
        mtime: now,
        ctime: now,
        ..*inode
    }
}
