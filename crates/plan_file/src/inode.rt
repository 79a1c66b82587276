// The inode of a file after a batch.

ghost use Rattle.std.specs.Prelude.{◌≡◌, ◌<◌, ◌^◌, ℕ, List, All};
ghost use Rattle.v7_layout.specs.Written.{AddressesFit};
ghost use Rattle.plan_file.specs.Found.{ReplacesInode};
ghost use Rattle.plan_file.specs.Grown.{grown_inode, stored_inode, AreDirect};
ghost use Rattle.plan_file.specs.Places.{AreWithin};

use crate::places::Places;
use files_model::Attr;
use v7_layout::{Inode, Record};
use v7_read::{Found, inode_offset_of};

/// The blocks of the first ten sectors.
pub fn direct_places(target: &Places) -> [u32; 10]
    requires { AreWithin 1048576 target.now }
    ensures direct { AreDirect target.now.body result }
    ensures fit { All (λ address. address < 2 ^ 24) result }
{
    let mut direct = [0; 10];
    for index in 0..10 {
        direct[index] = target.body[index];
    }
    direct
}

/// The sector of a file's inode with another inode in its place.
pub fn sector_with(found: &Found, ino: u32, inode: &Inode) -> [u8; 512]
    requires { AddressesFit inode.now }
    ensures { ReplacesInode found.now.sector ino inode.now result }
{
    let mut bytes = [0; 64];
    inode.write(&mut bytes);
    let at = inode_offset_of(ino);
    let mut sector = found.sector;
    sector[at..at + 64].copy_from_slice(&bytes);
    sector
}

/// The sector of a file's inode, which has the size and the times of these attributes, and these places.
pub fn sector_of_inode(found: &Found, ino: u32, attr: &Attr, target: &Places) -> [u8; 512]
    requires { AreWithin 1048576 target.now }
    ensures { (direct : List ℕ) × AreDirect target.now.body direct × ReplacesInode found.now.sector ino (grown_inode found.now.inode attr.now direct target.now.single) result }
{
    let inode = Inode {
        size: attr.size,
        direct: direct_places(target),
        single: target.single,
        mtime: attr.mtime,
        ctime: attr.ctime,
        ..found.inode
    };
    sector_with(found, ino, &inode)
}

/// An inode with other attributes and other blocks. Its type, its links, its generation and its double address stay.
pub fn stored_inode(inode: &Inode, attr: &Attr, direct: &[u32; 10], single: u32) -> Inode
    requires { attr.now.mode < 4096 }
    ensures { result ≡ stored_inode inode.now attr.now direct.now single }
{
    Inode {
        mode: inode.mode / 4096 * 4096 + attr.mode,
        uid: attr.uid,
        gid: attr.gid,
        size: attr.size,
        direct: *direct,
        single,
        atime: attr.atime,
        mtime: attr.mtime,
        ctime: attr.ctime,
        ..*inode
    }
}
