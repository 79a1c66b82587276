// The super-block, sector 1 of a volume.

ghost use Rattle.std.specs.Prelude.{⊤};
ghost use Rattle.v7_layout.specs.Records.{super_of};
ghost use Rattle.v7_layout.specs.Written.{super_bytes};

use crate::fields::{
    blocks_at, byte_at, bytes_at, long_at, numbers_at, put_blocks, put_bytes, put_long,
    put_numbers, put_short, put_zeros, short_at,
};
use crate::shared::Record;

/// A super-block as the 512 bytes of sector 1 have it (filsys(5), with this project's own layout).
///
/// While a volume runs, its lists of free blocks and inodes and their counts mean nothing.
#[derive(Clone, Copy, Debug, PartialEq, Eq)]
pub struct Super {
    /// The address of the first block after the i-list.
    pub s_isize: u16,
    /// The address of the first block that can't be allocated.
    pub s_fsize: u32,
    /// How many places of `s_free` are used.
    pub s_nfree: u16,
    /// Addresses of free blocks. The first is the next chain record, and 0 there is the end of the chain.
    pub s_free: [u32; 50],
    /// How many places of `s_inode` are used.
    pub s_ninode: u16,
    /// Numbers of free inodes.
    pub s_inode: [u16; 100],
    /// 0 on the disk.
    pub s_flock: u8,
    /// 0 on the disk.
    pub s_ilock: u8,
    /// 0 where the volume was stopped cleanly.
    pub s_fmod: u8,
    /// Other than 0 on a read-only volume.
    pub s_ronly: u8,
    /// When the super-block was last put, in seconds since 1970.
    pub s_time: u32,
    /// How many blocks are free.
    pub s_tfree: u32,
    /// How many inodes are free.
    pub s_tinode: u16,
    /// 0 on the disk.
    pub s_m: u16,
    /// 0 on the disk.
    pub s_n: u16,
    /// Six zero bytes on the disk.
    pub s_fname: [u8; 6],
    /// The volume's name.
    pub s_fpack: [u8; 6],
    /// The volume mark, which says how its files are laid out.
    pub mark: u32,
}

impl Record for Super {
    ghost size = { 512 };

    ghost of = { super_of };

    ghost fits = { λ any. ⊤ };

    ghost written = { super_bytes };

    /// The super-block of 512 bytes. Any bytes are one, and the last 68 are passed over.
    #[tactic(auto, unfolding(crate::specs::Records::super_of))]
    fn read(bytes: &[u8]) -> Self {
        Super {
            s_isize: short_at(bytes, 0),
            s_fsize: long_at(bytes, 2),
            s_nfree: short_at(bytes, 6),
            s_free: blocks_at(bytes, 8),
            s_ninode: short_at(bytes, 208),
            s_inode: numbers_at(bytes, 210),
            s_flock: byte_at(bytes, 410),
            s_ilock: byte_at(bytes, 411),
            s_fmod: byte_at(bytes, 412),
            s_ronly: byte_at(bytes, 413),
            s_time: long_at(bytes, 414),
            s_tfree: long_at(bytes, 418),
            s_tinode: short_at(bytes, 422),
            s_m: short_at(bytes, 424),
            s_n: short_at(bytes, 426),
            s_fname: bytes_at(bytes, 428),
            s_fpack: bytes_at(bytes, 434),
            mark: long_at(bytes, 440),
        }
    }

    /// Writes the super-block as 512 bytes, of which the last 68 are zeros.
    fn write(&self, bytes: &mut [u8]) {
        put_short(bytes, 0, self.s_isize);
        put_long(bytes, 2, self.s_fsize);
        put_short(bytes, 6, self.s_nfree);
        put_blocks(bytes, 8, &self.s_free);
        put_short(bytes, 208, self.s_ninode);
        put_numbers(bytes, 210, &self.s_inode);
        put_bytes(
            bytes,
            410,
            &[self.s_flock, self.s_ilock, self.s_fmod, self.s_ronly],
        );
        put_long(bytes, 414, self.s_time);
        put_long(bytes, 418, self.s_tfree);
        put_short(bytes, 422, self.s_tinode);
        put_short(bytes, 424, self.s_m);
        put_short(bytes, 426, self.s_n);
        put_bytes(bytes, 428, &self.s_fname);
        put_bytes(bytes, 434, &self.s_fpack);
        put_long(bytes, 440, self.mark);
        put_zeros(bytes, 444);
    }
}
