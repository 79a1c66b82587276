// The inode, 64 bytes of a sector of the i-list.

ghost use Rattle.v7_layout.specs.Records.{inode_of};
ghost use Rattle.v7_layout.specs.Written.{inode_bytes, AddressesFit};

use crate::fields::{
    address_at, addresses_at, long_at, put_address, put_addresses, put_long, put_short, short_at,
};
use crate::shared::Record;

/// An inode as its 64 bytes have it (filsys(5), with this project's own layout).
///
/// An address is a sector of the volume, and 0 is none.
#[derive(Clone, Copy, Debug, PartialEq, Eq)]
pub struct Inode {
    /// The type and twelve permission bits: 0040000 a directory, 0100000 a regular file, 0120000 a
    /// symbolic link. 0 is a free inode.
    pub mode: u16,
    /// How many slots name it.
    pub nlink: u16,
    /// The owner.
    pub uid: u16,
    /// The owner's group.
    pub gid: u16,
    /// The length of its contents in bytes.
    pub size: u32,
    /// The addresses of its first ten sectors.
    pub direct: [u32; 10],
    /// The address of the block that holds the next 128 addresses.
    pub single: u32,
    /// The address of the block that holds the addresses of 128 such blocks.
    pub double: u32,
    /// How many times the inode was taken for a new file. A free inode keeps it.
    pub generation: u32,
    /// When its contents were last read, in seconds since 1970.
    pub atime: u32,
    /// When its contents last changed, in seconds since 1970.
    pub mtime: u32,
    /// When the inode itself last changed, in seconds since 1970.
    pub ctime: u32,
}

impl Record for Inode {
    ghost size = { 64 };

    ghost of = { inode_of };

    ghost fits = { AddressesFit };

    ghost written = { inode_bytes };

    /// The inode of 64 bytes. Any bytes are one, and it can be written again.
    #[tactic(auto, unfolding(crate::specs::Records::inode_of, crate::specs::Numbers::fields))]
    fn read(bytes: &[u8]) -> Self {
        Inode {
            mode: short_at(bytes, 0),
            nlink: short_at(bytes, 2),
            uid: short_at(bytes, 4),
            gid: short_at(bytes, 6),
            size: long_at(bytes, 8),
            direct: addresses_at(bytes, 12),
            single: address_at(bytes, 42),
            double: address_at(bytes, 45),
            generation: long_at(bytes, 48),
            atime: long_at(bytes, 52),
            mtime: long_at(bytes, 56),
            ctime: long_at(bytes, 60),
        }
    }

    /// Writes the inode as 64 bytes. Each of its twelve addresses has to be below 16,777,216, since an
    /// address has three bytes.
    fn write(&self, bytes: &mut [u8]) {
        put_short(bytes, 0, self.mode);
        put_short(bytes, 2, self.nlink);
        put_short(bytes, 4, self.uid);
        put_short(bytes, 6, self.gid);
        put_long(bytes, 8, self.size);
        put_addresses(bytes, 12, &self.direct);
        put_address(bytes, 42, self.single);
        put_address(bytes, 45, self.double);
        put_long(bytes, 48, self.generation);
        put_long(bytes, 52, self.atime);
        put_long(bytes, 56, self.mtime);
        put_long(bytes, 60, self.ctime);
    }
}
