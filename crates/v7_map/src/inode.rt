// What an inode says of its file.

ghost use Rattle.std.specs.Prelude.{◌≡◌, ◌/◌};
ghost use Rattle.v7_map.specs.View.{kind_of};
ghost use Rattle.v7_map.specs.Stored.{is_current, stored_attr, limited};

use files_model::{Attr, Kind};
use v7_layout::Inode;

/// The type of a directory and of a symbolic link in the four highest bits of a mode (filsys(5)).
const DIRECTORY: u16 = 4;

const LINK: u16 = 10;

/// The greatest size of a file in bytes: ten sectors by its inode and 128 by its block of addresses.
pub const SIZE_LIMIT: u32 = 70_656;

/// The kind of file that a mode says. On a volume that can be mended a used inode has no type but
/// those of a directory, a link and a regular file.
pub fn kind_of(mode: u16) -> Kind
    ensures { result ≡ kind_of (mode / 4096) }
{
    match mode / 4096 {
        DIRECTORY => Kind::Directory,
        LINK => Kind::Link,
        _ => Kind::Regular,
    }
}

/// Whether the inode is used and has this generation, so that a handle with both is not stale.
pub fn is_current(inode: &Inode, generation: u32) -> bool
    ensures { result ≡ is_current inode.now generation }
{
    inode.mode != 0 && inode.generation == generation
}

/// The attributes that an inode stores. Where a volume has nothing to mend they are those of its file.
pub fn attributes_of(ino: u32, inode: &Inode) -> Attr
    ensures { result ≡ stored_attr ino inode.now }
{
    Attr {
        kind: kind_of(inode.mode),
        mode: inode.mode % 4096,
        nlink: inode.nlink,
        uid: inode.uid,
        gid: inode.gid,
        size: inode.size,
        fileid: ino,
        atime: inode.atime,
        mtime: inode.mtime,
        ctime: inode.ctime,
    }
}

/// The inode with a size that a file can have: one above 70,656 bytes is taken as 70,656. Nothing else
/// changes. Where a volume can be mended each used inode is as before.
pub fn with_limits(inode: &Inode) -> Inode
    ensures { result ≡ limited inode.now }
{
    Inode {
        size: inode.size.min(SIZE_LIMIT),
        ..*inode
    }
}
