// READLINK (RFC 1094 2.2.6).
ghost use Rattle.files_model.specs.declared.call.Call.TheVariants.{Readlink};
ghost use Rattle.stable.specs.Looked.{Looked};
ghost use Rattle.volume.specs.Applied.{IsApplied};

use crate::outcome::Outcome;
use files_model::{Cred, FileId, Reply, Stat, Text};
use stable::Stable;
use std::alloc::Global;
use v7_contents::{ReadFault, read_content, readlink_refusal_of};
use v7_read::find;

/// The most bytes of a link (RFC 1094 2.3.9, path).
const MOST_TEXT: u32 = 1024;

/// Reads a symbolic link, each of its sectors at most once, and its block of addresses once. Nothing is changed.
pub fn readlink<S: Stable>(
    alloc: Global,
    store: &mut S,
    file: FileId,
    cred: &Cred,
    now: u32,
) -> Outcome
    ensures applied { IsApplied S.Stable store.old store.new (Readlink file) cred.now now result }
    ensures looked { Looked S.Stable store.old store.new }
{
    let found = match find(store, file) {
        Ok(Some(found)) => found,
        Ok(None) => return Outcome::Reply(Reply::Refused(Stat::Stale)),
        Err(_) => return Outcome::Io,
    };
    if let Some(status) = readlink_refusal_of(&found.inode) {
        return Outcome::Reply(Reply::Refused(status));
    }
    match read_content(alloc, store, &found, 0, MOST_TEXT) {
        Ok(bytes) => Outcome::Reply(Reply::Text(Text::new(bytes))),
        Err(ReadFault::Failed) => Outcome::Io,
        Err(ReadFault::NoMemory) => Outcome::NoMemory,
    }
}
