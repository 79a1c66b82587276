// What READLINK and READDIR refuse, by the records.

ghost use Rattle.std.specs.Prelude.{◌≡◌};
ghost use Rattle.v7_contents.specs.Answers.{readdir_refusal_by, readlink_refusal_by};

use files_model::{Cred, Kind, Stat, Want, may};
use v7_layout::Inode;
use v7_map::{attributes_of, kind_of};

/// The refusal of a READLINK (RFC 1094 2.2.6), if any: NXIO where the inode is no symbolic link's.
pub fn readlink_refusal_of(inode: &Inode) -> Option<Stat>
    ensures { result ≡ readlink_refusal_by inode.now }
{
    if kind_of(inode.mode) == Kind::Link {
        None
    } else {
        Some(Stat::Nxio)
    }
}

/// The refusal of a READDIR of inode `ino` (RFC 1094 2.2.17), if any: NOTDIR where it is no directory's, ACCES where the caller may not read it.
pub fn readdir_refusal_of(ino: u32, inode: &Inode, cred: &Cred) -> Option<Stat>
    ensures { result ≡ readdir_refusal_by ino inode.now cred.now }
{
    let attributes = attributes_of(ino, inode);
    if attributes.kind != Kind::Directory {
        Some(Stat::Notdir)
    } else if !may(cred, &attributes, Want::Read) {
        Some(Stat::Acces)
    } else {
        None
    }
}
