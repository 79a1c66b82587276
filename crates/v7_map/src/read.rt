// A READ, by the records of its volume.

ghost use Rattle.std.specs.Prelude.{◌≡◌};
ghost use Rattle.v7_map.specs.Stored.{read_refusal_by};

use crate::inode::attributes_of;
use files_model::{Cred, Kind, Stat, Want, may};
use v7_layout::Inode;

/// The refusal of a READ of inode `ino` (RFC 1094 2.2.7), if any: ISDIR for a directory, NXIO for a
/// link, ACCES where the caller may not read.
pub fn read_refusal_of(ino: u32, inode: &Inode, cred: &Cred) -> Option<Stat>
    ensures { result ≡ read_refusal_by ino inode.now cred.now }
{
    let attributes = attributes_of(ino, inode);
    if attributes.kind == Kind::Directory {
        Some(Stat::Isdir)
    } else if attributes.kind == Kind::Link {
        Some(Stat::Nxio)
    } else if !may(cred, &attributes, Want::Read) {
        Some(Stat::Acces)
    } else {
        None
    }
}
