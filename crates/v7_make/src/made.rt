// The sectors of a new volume.

ghost use Rattle.std.specs.Prelude.{ℕ, ◌≡◌, ◌≢◌, ◌<◌, ◌≤◌, ◌+◌, ◌*◌, ◌^◌, [], ◌∷◌, ◌++◌, take, drop, replicate, length};
ghost use Rattle.v7_layout.specs.Numbers.{part};
ghost use Rattle.v7_layout.specs.Records.{inode_of, slot_of_bytes};
ghost use Rattle.v7_layout.specs.Written.{AddressesFit};
ghost use Rattle.v7_make.specs.Made.{root_inode, FreshInodes};

use v7_layout::{Inode, Record, Slot};

/// The root's inode, whose only block this is.
pub fn root_inode(block: u32, now: u32) -> Inode
    requires { block < 2 ^ 24 }
    ensures inode { result ≡ root_inode block now }
    ensures fits { AddressesFit result }
{
    let mut direct = [0; 10];
    direct[0] = block;
    Inode {
        mode: 0o040_755,
        nlink: 2,
        uid: 0,
        gid: 0,
        size: 32,
        direct,
        single: 0,
        double: 0,
        generation: 1,
        atime: now,
        mtime: now,
        ctime: now,
    }
}

/// A sector of zeros.
pub fn no_bytes() -> [u8; 512]
    ensures { result ≡ replicate 512 0 }
{
    [0; 512]
}

// The sector with these bytes from a place on.
fn with_part(sector: &[u8; 512], at: usize, bytes: &[u8]) -> [u8; 512]
    requires { at + length bytes.now ≤ 512 }
    ensures { result ≡ take at sector.now ++ bytes.now ++ drop (at + length bytes.now) sector.now }
{
    let mut sector = *sector;
    sector[at..at + bytes.len()].copy_from_slice(bytes);
    sector
}

/// The first sector of inodes: the root's is the second, and the others are free.
pub fn first_inodes(block: u32, now: u32) -> [u8; 512]
    requires { block < 2 ^ 24 }
    ensures root { inode_of (part result 64 64) ≡ root_inode block now }
    ensures others { (k : ℕ) → k < 8 → k ≢ 1 → part result (64 * k) 64 ≡ replicate 64 0 }
{
    let mut bytes = [0; 64];
    root_inode(block, now).write(&mut bytes);
    with_part(&no_bytes(), 64, &bytes)
}

// A slot of the root that names the root.
fn root_slot(name: [u8; 14]) -> [u8; 16]
    ensures { slot_of_bytes result ≡ record { ino = 2; name = name } }
{
    let mut bytes = [0; 16];
    Slot { ino: 2, name }.write(&mut bytes);
    bytes
}

/// The root's block: `.` and `..`, and empty slots.
pub fn root_block() -> [u8; 512]
    ensures dot { slot_of_bytes (part result 0 16) ≡ record { ino = 2; name = 46 ∷ replicate 13 0 } }
    ensures dots { slot_of_bytes (part result 16 16) ≡ record { ino = 2; name = 46 ∷ 46 ∷ replicate 12 0 } }
{
    let first = with_part(&no_bytes(), 0, &root_slot(*b".\0\0\0\0\0\0\0\0\0\0\0\0\0"));
    with_part(&first, 16, &root_slot(*b"..\0\0\0\0\0\0\0\0\0\0\0\0"))
}

/// A sector of inodes of a new volume, whose root's block this is.
pub fn fresh_inodes(sector: u32, block: u32, now: u32) -> [u8; 512]
    requires { block < 2 ^ 24 }
    ensures { FreshInodes sector block now result }
{
    if sector == 2 {
        return first_inodes(block, now);
    }
    no_bytes()
}
