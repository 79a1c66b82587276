// What a SETATTR is refused with, and what it makes of the attributes of its file (RFC 1094 2.2.3).

ghost use Rattle.std.specs.Prelude.{◌≡◌, ◌%◌, is_some, if◌then◌else◌};
ghost use Rattle.std.specs.Option.{unwrap_or, option_map};
ghost use Rattle.files_model.specs.Attributes.{id_of, is_other, is_own_group, sets_owned, is_above, set_attr};
ghost use Rattle.files_model.specs.Space.{size_limit};
ghost use Rattle.files_model.specs.Step.{setattr_refusal};

use files_model::{Attr, Cred, Kind, Sattr, Stat, Want, may};
use v7_map::SIZE_LIMIT;

/// The id that stands for one above 16 bits, which is nobody's.
const NOBODY: u16 = 65_534;

/// An id of 16 bits: a greater one is that of nobody, 65,534.
pub fn id_of(id: u32) -> u16
    ensures { result ≡ id_of id }
{
    if id > 65_535 {
        return NOBODY;
    }
    id as u16
}

// Whether an id is set, to another one.
fn is_other(set: Option<u32>, id: u16) -> bool
    ensures { result ≡ is_other set id }
{
    match set {
        Some(set) => id_of(set) != id,
        None => false,
    }
}

// Whether a group is set that is one of the caller's.
fn is_own_group(cred: &Cred, set: Option<u32>) -> bool
    ensures { result ≡ is_own_group cred.now set }
{
    match set {
        Some(gid) => cred.gid == id_of(gid) || cred.gids.ids().contains(&id_of(gid)),
        None => false,
    }
}

// Whether a mode or a time is set.
fn sets_owned(set: &Sattr) -> bool
    ensures { result ≡ sets_owned set.now }
{
    set.mode.is_some() || (set.atime.is_some() || set.mtime.is_some())
}

// Whether a size is set that no file has.
fn is_too_large(set: &Sattr) -> bool
    ensures { result ≡ is_above set.now.size size_limit }
{
    match set.size {
        Some(size) => size > SIZE_LIMIT,
        None => false,
    }
}

/// The refusal of a SETATTR by the attributes of its file, if any: ROFS on a read-only volume; for a size ISDIR on a directory and NXIO on a link; PERM
/// for a mode or a time unless the caller is the owner or user 0, for another owner unless user 0, and for another group unless user 0 or the owner
/// within that group; for a size ACCES where the caller may not write, and FBIG above 70,656 bytes.
pub fn set_refusal_of(read_only: bool, attr: &Attr, set: &Sattr, cred: &Cred) -> Option<Stat>
    ensures { result ≡ setattr_refusal read_only attr.now set.now cred.now }
{
    let root = cred.uid == 0;
    let owner = cred.uid == attr.uid;
    let sized = set.size.is_some();
    if read_only {
        return Some(Stat::Rofs);
    }
    if sized && attr.kind == Kind::Directory {
        return Some(Stat::Isdir);
    }
    if sized && attr.kind == Kind::Link {
        return Some(Stat::Nxio);
    }
    if sets_owned(set) && !(owner || root) {
        return Some(Stat::Perm);
    }
    if is_other(set.uid, attr.uid) && !root {
        return Some(Stat::Perm);
    }
    if is_other(set.gid, attr.gid) && !(root || (owner && is_own_group(cred, set.gid))) {
        return Some(Stat::Perm);
    }
    if sized && !may(cred, attr, Want::Write) {
        return Some(Stat::Acces);
    }
    if is_too_large(set) {
        return Some(Stat::Fbig);
    }
    None
}

// The id that is set, or another one.
fn id_or(set: Option<u32>, id: u16) -> u16
    ensures { result ≡ unwrap_or (option_map id_of set) id }
{
    match set {
        Some(set) => id_of(set),
        None => id,
    }
}

// The twelve permission bits of the mode that is set, or those of another one.
fn mode_or(set: Option<u32>, mode: u16) -> u16
    ensures { result ≡ unwrap_or (option_map (λ set. set % 4096) set) mode }
{
    match set {
        Some(set) => (set % 4096) as u16,
        None => mode,
    }
}

// mtime without a time that is set: now where a size is set.
fn mtime_of(attr: &Attr, set: &Sattr, now: u32) -> u32
    ensures { result ≡ (if is_some set.now.size then now else attr.now.mtime) }
{
    if set.size.is_some() {
        return now;
    }
    attr.mtime
}

/// The attributes after a SETATTR: those that are set; ctime is now, and so is mtime where a size is set; times that are set come last.
pub fn set_attributes(attr: &Attr, set: &Sattr, now: u32) -> Attr
    ensures { result ≡ set_attr attr.now set.now now }
{
    Attr {
        mode: mode_or(set.mode, attr.mode),
        uid: id_or(set.uid, attr.uid),
        gid: id_or(set.gid, attr.gid),
        size: set.size.unwrap_or(attr.size),
        atime: set.atime.unwrap_or(attr.atime),
        mtime: set.mtime.unwrap_or(mtime_of(attr, set, now)),
        ctime: now,
        ..*attr
    }
}
