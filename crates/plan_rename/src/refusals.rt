// What a RENAME is refused with, by attributes.

ghost use Rattle.std.specs.Prelude.{◌≡◌, [], ◌∷◌, ◌++◌, not, ◌&&◌, nat_lt};
ghost use Rattle.files_model.specs.Answers.{first_of};
ghost use Rattle.files_model.specs.Names.{name_tests};
ghost use Rattle.files_model.specs.Permission.{allows, is_directory};
ghost use Rattle.files_model.specs.Space.{size_limit};
ghost use Rattle.files_model.specs.declared.permission.Want.TheVariants as want;
ghost use Rattle.files_model.specs.declared.reply.Stat.TheVariants as stat;
ghost use Rattle.plan_rename.specs.Refusals.{blocks_needed, kind_tests, longer_size, room_tests, told_tests};

use files_model::{Attr, Cred, Kind, Name, Stat, Want, may};
use plan_name::{added_blocks, name_refusal};
use v7_map::SIZE_LIMIT;

/// How long a slot of a directory is, in bytes (filsys(5)).
const SLOT_BYTES: u32 = 16;

/// The most links that a node can have, of which a RENAME needs one more for a moment.
const MOST_LINKS: u16 = 65_535;

/// The refusal of a RENAME before its old name is looked up, if any: ROFS on a read-only volume, NOTDIR where the old or the new name's directory is
/// none, that of the old name, that of the new one.
pub(crate) fn names_refusal(
    read_only: bool,
    from: Kind,
    to: Kind,
    name: &Name,
    new_name: &Name,
) -> Option<Stat>
    ensures { result ≡ first_of ((read_only, stat.Rofs) ∷ (not (is_directory from), stat.Notdir) ∷ (not (is_directory to), stat.Notdir) ∷ name_tests name.now ++ name_tests new_name.now) }
{
    if read_only {
        return Some(Stat::Rofs);
    }
    if from != Kind::Directory {
        return Some(Stat::Notdir);
    }
    if to != Kind::Directory {
        return Some(Stat::Notdir);
    }
    match name_refusal(name) {
        Some(status) => return Some(status),
        None => {}
    }
    name_refusal(new_name)
}

/// What is told of a RENAME whose old name is found: the attributes of the node that has it, and of the two directories; whether both are one; what
/// kind of node has the new name, if any; and whether a new entry comes at the end of its directory.
#[derive(Clone, Copy)]
pub(crate) struct Told {
    pub(crate) node: Attr,
    pub(crate) from: Attr,
    pub(crate) to: Attr,
    pub(crate) same: bool,
    pub(crate) standing: Option<Kind>,
    pub(crate) at_end: bool,
}

// The refusal by the kinds of what moves and of what stands under the new name, if any.
fn kind_refusal(directory: bool, same: bool, standing: Option<Kind>) -> Option<Stat>
    ensures { result ≡ first_of (kind_tests directory same standing) }
{
    if directory && standing.is_some() {
        return Some(Stat::Exist);
    }
    if directory && !same {
        return Some(Stat::Perm);
    }
    if standing == Some(Kind::Directory) {
        return Some(Stat::Isdir);
    }
    None
}

// The caller may write and search a directory.
fn may_change(cred: &Cred, directory: &Attr) -> bool
    ensures { result ≡ (allows cred.now directory.now want.Write && allows cred.now directory.now want.Search) }
{
    may(cred, directory, Want::Write) && may(cred, directory, Want::Search)
}

// A directory of this size would be above the greatest size with one entry more.
fn is_too_long(size: u32, at_end: bool) -> bool
    ensures { result ≡ nat_lt size_limit (longer_size size at_end) }
{
    if at_end {
        return size > SIZE_LIMIT - SLOT_BYTES;
    }
    size > SIZE_LIMIT
}

// How many blocks a directory takes besides with one entry more.
fn blocks_needed(size: u32, at_end: bool) -> u32
    ensures { result ≡ blocks_needed size at_end }
{
    if at_end {
        return added_blocks(size);
    }
    0
}

// The refusal for want of room, if any: FBIG where the directory would be above 70,656 bytes, NOSPC where the node has as many links as it can have, or
// fewer blocks are free than the directory takes besides.
fn room_refusal(links: u16, size: u32, at_end: bool, free: u32) -> Option<Stat>
    ensures { result ≡ first_of (room_tests links size at_end free) }
{
    if is_too_long(size, at_end) {
        return Some(Stat::Fbig);
    }
    if links == MOST_LINKS || free < blocks_needed(size, at_end) {
        return Some(Stat::Nospc);
    }
    None
}

/// The refusal of a RENAME whose old name is found, if any (RFC 1094 2.2.12), where so many blocks are free: EXIST for a directory onto a name that
/// stands, PERM for one to another parent, ISDIR for a file onto a directory, ACCES where the caller may not write and search both directories, then for
/// want of room, of which a new name in the slot of the old one takes none.
pub(crate) fn rename_refusal(told: &Told, free: u32, cred: &Cred) -> Option<Stat>
    ensures { result ≡ first_of (told_tests told.now free cred.now) }
{
    match kind_refusal(told.node.kind == Kind::Directory, told.same, told.standing) {
        Some(status) => return Some(status),
        None => {}
    }
    if !may_change(cred, &told.from) {
        return Some(Stat::Acces);
    }
    if !may_change(cred, &told.to) {
        return Some(Stat::Acces);
    }
    if told.same && told.standing.is_none() {
        return None;
    }
    room_refusal(told.node.nlink, told.to.size, told.at_end, free)
}
