// READ (RFC 1094 2.2.7).
ghost use Rattle.files_model.specs.declared.call.Call.TheVariants.{Read};
ghost use Rattle.stable.specs.Looked.{Looked};
ghost use Rattle.volume.specs.Applied.{IsApplied};

use crate::outcome::Outcome;
use files_model::{Cred, Data, FileId, Reply, Stat};
use stable::Stable;
use std::alloc::Global;
use v7_contents::{ReadFault, read_content};
use v7_map::{attributes_of, read_refusal_of};
use v7_read::find;

/// Reads bytes of a file, each sector at most once, and the block of addresses once. Nothing is changed.
pub fn read<S: Stable>(
    alloc: Global,
    store: &mut S,
    file: FileId,
    offset: u32,
    count: u32,
    cred: &Cred,
    now: u32,
) -> Outcome
    ensures applied { IsApplied S.Stable store.old store.new (Read file offset count) cred.now now result }
    ensures looked { Looked S.Stable store.old store.new }
{
    let found = match find(store, file) {
        Ok(Some(found)) => found,
        Ok(None) => return Outcome::Reply(Reply::Refused(Stat::Stale)),
        Err(_) => return Outcome::Io,
    };
    if let Some(status) = read_refusal_of(file.ino, &found.inode, cred) {
        return Outcome::Reply(Reply::Refused(status));
    }
    match read_content(alloc, store, &found, offset, count) {
        Ok(bytes) => Outcome::Reply(Reply::Data {
            attr: attributes_of(file.ino, &found.inode),
            bytes: Data::new(bytes),
        }),
        Err(ReadFault::Failed) => Outcome::Io,
        Err(ReadFault::NoMemory) => Outcome::NoMemory,
    }
}
