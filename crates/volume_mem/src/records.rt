// The records of the volume.

ghost use Rattle.v7_layout.specs.Written.{AddressesFit};

use v7_layout::{Inode, Super};

/// What differs from volume to volume.
#[derive(Clone, Copy)]
pub struct Shape {
    /// Other than 0 on a read-only volume.
    pub read_only: u8,
    /// The mode of file 3.
    pub mode: u16,
    /// Its mtime and ctime.
    pub changed: u32,
    /// Its bytes 511 and 512.
    pub bytes: [u8; 2],
}

/// The volume as most tests have it.
pub const FRESH: Shape = Shape {
    read_only: 0,
    mode: 0o100_644,
    changed: 1000,
    bytes: *b"aa",
};

/// After a WRITE of "XY" at byte 511 of file 3, at second 2000.
pub const WRITTEN: Shape = Shape {
    changed: 2000,
    bytes: *b"XY",
    ..FRESH
};

/// The super-block of a volume of 64 sectors and 16 inodes.
pub(crate) fn super_block(read_only: u8) -> Super {
    Super {
        s_isize: 4,
        s_fsize: 64,
        s_nfree: 0,
        s_free: [0; 50],
        s_ninode: 0,
        s_inode: [0; 100],
        s_flock: 0,
        s_ilock: 0,
        s_fmod: 0,
        s_ronly: read_only,
        s_time: 1000,
        s_tfree: 57,
        s_tinode: 13,
        s_m: 0,
        s_n: 0,
        s_fname: [0; 6],
        s_fpack: *b"VOLA00",
        mark: 1,
    }
}

/// The root, inode 2, of three slots in sector 4.
pub const ROOT: Inode = Inode {
    mode: 0o040_755,
    nlink: 2,
    uid: 0,
    gid: 0,
    size: 48,
    direct: [4, 0, 0, 0, 0, 0, 0, 0, 0, 0],
    single: 0,
    double: 0,
    generation: 1,
    atime: 1000,
    mtime: 1000,
    ctime: 1000,
};

/// File 3, of 1,024 bytes in sectors 5 and 6.
pub fn file(shape: Shape) -> Inode
    ensures { AddressesFit result }
{
    Inode {
        mode: shape.mode,
        nlink: 1,
        uid: 100,
        gid: 100,
        size: 1024,
        direct: [5, 6, 0, 0, 0, 0, 0, 0, 0, 0],
        mtime: shape.changed,
        ctime: shape.changed,
        ..ROOT
    }
}
