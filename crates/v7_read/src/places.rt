// Where the inodes of a volume stand.

ghost use Rattle.std.specs.Prelude.{◌≡◌};
ghost use Rattle.v7_layout.specs.Numbers.{part};
ghost use Rattle.v7_layout.specs.Records.{inode_of};
ghost use Rattle.v7_layout.specs.Written.{AddressesFit};
ghost use Rattle.v7_map.specs.Image.{inode_sector, inode_offset};

use v7_layout::{Inode, Record};

/// The sector of an inode. Inodes are numbered from 1, and stand eight to a sector from sector 2 on.
pub fn inode_sector_of(ino: u32) -> u32
    ensures { result ≡ inode_sector ino }
{
    2 + ino.saturating_sub(1) / 8
}

/// The first of an inode's 64 bytes in its sector.
pub fn inode_offset_of(ino: u32) -> usize
    ensures { result ≡ inode_offset ino }
{
    64 * (ino.saturating_sub(1) as usize % 8)
}

/// The inode of this number, in the sector where it stands.
pub fn inode_in(sector: &[u8; 512], ino: u32) -> Inode
    ensures inode { result ≡ inode_of (part sector.now (inode_offset ino) 64) }
    ensures fits { AddressesFit result }
{
    let at = inode_offset_of(ino);
    Inode::read(&sector[at..at + 64])
}
