// READDIR (RFC 1094 2.2.17).
ghost use Rattle.files_model.specs.declared.call.Call.TheVariants.{Readdir};
ghost use Rattle.stable.specs.Looked.{Looked};
ghost use Rattle.volume.specs.Applied.{IsApplied};

use crate::outcome::Outcome;
use files_model::{Cred, FileId, Reply, Stat};
use stable::Stable;
use std::alloc::Global;
use v7_contents::{ReadFault, list_entries, readdir_refusal_of};
use v7_read::find;

/// Lists entries of a directory from the one that a cookie leads to on, as many as a reply of so many bytes takes. Each sector of the directory is
/// read at most once, and its block of addresses once. Nothing is changed.
pub fn readdir<S: Stable>(
    alloc: Global,
    store: &mut S,
    dir: FileId,
    cookie: u32,
    count: u32,
    cred: &Cred,
    now: u32,
) -> Outcome
    ensures applied { IsApplied S.Stable store.old store.new (Readdir dir cookie count) cred.now now result }
    ensures looked { Looked S.Stable store.old store.new }
{
    let found = match find(store, dir) {
        Ok(Some(found)) => found,
        Ok(None) => return Outcome::Reply(Reply::Refused(Stat::Stale)),
        Err(_) => return Outcome::Io,
    };
    if let Some(status) = readdir_refusal_of(dir.ino, &found.inode, cred) {
        return Outcome::Reply(Reply::Refused(status));
    }
    match list_entries(alloc, store, &found.inode, cookie, count) {
        Ok(listing) => Outcome::Reply(Reply::Entries {
            list: listing.list,
            end: listing.end,
        }),
        Err(ReadFault::Failed) => Outcome::Io,
        Err(ReadFault::NoMemory) => Outcome::NoMemory,
    }
}
