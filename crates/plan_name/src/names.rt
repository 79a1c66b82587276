// What calls on names are refused with, by the attributes of a directory and its volume.

ghost use Rattle.std.specs.Prelude.{◌≡◌, [], ◌∷◌, ◌++◌, not, ◌&&◌, ◌||◌, nat_lt};
ghost use Rattle.files_model.specs.Answers.{first_of};
ghost use Rattle.files_model.specs.NameRows.{has_other_type};
ghost use Rattle.files_model.specs.Names.{is_bad, is_dots, name_tests};
ghost use Rattle.files_model.specs.Permission.{allows, is_directory, is_regular};
ghost use Rattle.files_model.specs.Space.{size_limit};
ghost use Rattle.files_model.specs.declared.permission.Want.TheVariants as want;
ghost use Rattle.files_model.specs.declared.reply.Stat.TheVariants as stat;

use files_model::{Attr, Cred, Kind, Name, Stat, Want, may};
use v7_map::SIZE_LIMIT;

/// How many bytes of name a slot has (filsys(5)).
const MOST_NAME: usize = 14;

// The name is empty, or has a byte 0 or a slash.
#[tactic(auto, using(crate::proofs::Bytes::bad_is))]
fn is_bad(name: &[u8]) -> bool
    ensures { result ≡ is_bad name.now }
{
    name.is_empty() || name.contains(&0) || name.contains(&b'/')
}

// The name is `.` or `..`.
fn is_dots(name: &[u8]) -> bool
    ensures { result ≡ is_dots name.now }
{
    name == b".".as_slice() || name == b"..".as_slice()
}

/// The refusal of a name that is to be made or taken away, if any: ACCES for an empty one, `.`, `..` and one with a byte 0 or a `/`, NAMETOOLONG
/// above 14 bytes.
pub fn name_refusal(name: &Name) -> Option<Stat>
    ensures { result ≡ first_of (name_tests name.now) }
{
    let bytes = name.bytes();
    if is_bad(bytes) || is_dots(bytes) {
        return Some(Stat::Acces);
    }
    if bytes.len() > MOST_NAME {
        return Some(Stat::Nametoolong);
    }
    None
}

/// The refusal of a name in a directory before it is looked up, if any: ROFS on a read-only volume, NOTDIR in what is no directory, that of the name.
pub fn place_refusal(read_only: bool, kind: Kind, name: &Name) -> Option<Stat>
    ensures { result ≡ first_of ((read_only, stat.Rofs) ∷ (not (is_directory kind), stat.Notdir) ∷ name_tests name.now) }
{
    if read_only {
        return Some(Stat::Rofs);
    }
    if kind != Kind::Directory {
        return Some(Stat::Notdir);
    }
    name_refusal(name)
}

// Whether the type bits of a mode are those of what is no regular file.
fn has_other_type(mode: Option<u32>) -> bool
    ensures { result ≡ has_other_type mode }
{
    match mode {
        Some(mode) => {
            let kind = mode / 4096 % 16;
            !(kind == 0 || kind == 8)
        }
        None => false,
    }
}

/// The refusal of a CREATE before its name is looked up, if any: ROFS on a read-only volume, NOTDIR in what is no directory, that of the name, PERM
/// for a mode with the type of what is no regular file.
pub fn create_refusal(read_only: bool, kind: Kind, name: &Name, mode: Option<u32>) -> Option<Stat>
    ensures { result ≡ first_of ((read_only, stat.Rofs) ∷ (not (is_directory kind), stat.Notdir) ∷ name_tests name.now ++ (has_other_type mode, stat.Perm) ∷ []) }
{
    match place_refusal(read_only, kind, name) {
        Some(status) => return Some(status),
        None => {}
    }
    if has_other_type(mode) {
        return Some(Stat::Perm);
    }
    None
}

/// The refusal of a CREATE of a name that is there, without a set size, by the kind of what has it: EXIST for what is no regular file.
pub fn standing_refusal(kind: Kind) -> Option<Stat>
    ensures { result ≡ first_of ((not (is_regular kind), stat.Exist) ∷ []) }
{
    if kind != Kind::Regular {
        return Some(Stat::Exist);
    }
    None
}

/// The refusal of a new entry in a directory with these attributes, which has `longer` bytes then, and of a file of that size: ACCES where the caller
/// may not write and search the directory, FBIG where either is above 70,656 bytes.
pub fn entry_refusal(directory: &Attr, cred: &Cred, size: u32, longer: u32) -> Option<Stat>
    ensures { result ≡ first_of ((not (allows cred.now directory.now want.Write && allows cred.now directory.now want.Search), stat.Acces) ∷ (nat_lt size_limit size || nat_lt size_limit longer, stat.Fbig) ∷ []) }
{
    if !(may(cred, directory, Want::Write) && may(cred, directory, Want::Search)) {
        return Some(Stat::Acces);
    }
    if size > SIZE_LIMIT || longer > SIZE_LIMIT {
        return Some(Stat::Fbig);
    }
    None
}
