// What calls on directories refuse, by the records.

ghost use Rattle.std.specs.Prelude.{◌≡◌};
ghost use Rattle.v7_entries.specs.Answers.{lookup_refusal_by, search_refusal_by};

use files_model::{Cred, Kind, Name, Stat, Want, may};
use v7_dir::{MOST_NAME, is_bad};
use v7_layout::Inode;
use v7_map::{attributes_of, kind_of};

/// The refusal of a LOOKUP before its name is looked up (RFC 1094 2.2.5), if any: NOTDIR where the inode is no directory's, ACCES where the name is
/// empty or has a byte 0 or a `/`, NAMETOOLONG above 14 bytes.
pub fn lookup_refusal_of(inode: &Inode, name: &Name) -> Option<Stat>
    ensures { result ≡ lookup_refusal_by inode.now name.now }
{
    let bytes = name.bytes();
    if kind_of(inode.mode) != Kind::Directory {
        Some(Stat::Notdir)
    } else if is_bad(bytes) {
        Some(Stat::Acces)
    } else if bytes.len() > MOST_NAME {
        Some(Stat::Nametoolong)
    } else {
        None
    }
}

/// The refusal of a caller who may not search directory `ino`: ACCES.
pub fn search_refusal_of(ino: u32, inode: &Inode, cred: &Cred) -> Option<Stat>
    ensures { result ≡ search_refusal_by ino inode.now cred.now }
{
    if may(cred, &attributes_of(ino, inode), Want::Search) {
        None
    } else {
        Some(Stat::Acces)
    }
}
