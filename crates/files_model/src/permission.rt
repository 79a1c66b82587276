//! Who may do what to a file.
ghost use Rattle.std.specs.Prelude.{◌≡◌};
ghost use Rattle.files_model.specs.Permission.{allows, class_bits, is_owner_of_file};

use crate::{Attr, Cred, Kind};

/// What a caller wants to do with a file or a directory.
#[derive(Clone, Copy, Debug, PartialEq, Eq)]
pub enum Want {
    Read,
    Write,
    Search,
}

// The three permission bits of the caller's class: owner, group or others.
fn bits_for(cred: &Cred, node: &Attr) -> u16
    ensures { result ≡ class_bits cred.now node.now }
{
    if cred.uid == node.uid {
        return node.mode / 64 % 8;
    }
    if cred.gid == node.gid || cred.gids.ids().contains(&node.gid) {
        return node.mode / 8 % 8;
    }
    node.mode % 8
}

// The owner of a regular file reads and writes it whatever its bits.
fn owns_file(cred: &Cred, node: &Attr) -> bool
    ensures { result ≡ is_owner_of_file cred.now node.now }
{
    cred.uid == node.uid && node.kind == Kind::Regular
}

/// Whether the caller may read, write or search a file with these attributes.
pub fn may(cred: &Cred, node: &Attr, want: Want) -> bool
    ensures { result ≡ allows cred.now node.now want }
{
    if cred.uid == 0 {
        return true;
    }
    let bits = bits_for(cred, node);
    let execute = bits % 2 == 1;
    match want {
        Want::Read => {
            owns_file(cred, node) || bits / 4 == 1 || (node.kind == Kind::Regular && execute)
        }
        Want::Write => owns_file(cred, node) || bits / 2 % 2 == 1,
        Want::Search => execute,
    }
}
