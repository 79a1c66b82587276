// GETATTR (RFC 1094 2.2.2).
ghost use Rattle.files_model.specs.declared.call.Call.TheVariants.{Getattr};
ghost use Rattle.stable.specs.Looked.{Looked};
ghost use Rattle.volume.specs.Applied.{IsApplied};

use crate::outcome::Outcome;
use files_model::{Cred, FileId, Reply, Stat};
use stable::Stable;
use v7_map::attributes_of;
use v7_read::find;

/// Tells the attributes of a file. Nothing is changed.
pub fn getattr<S: Stable>(store: &mut S, file: FileId, cred: &Cred, now: u32) -> Outcome
    ensures applied { IsApplied S.Stable store.old store.new (Getattr file) cred.now now result }
    ensures looked { Looked S.Stable store.old store.new }
{
    match find(store, file) {
        Ok(Some(found)) => Outcome::Reply(Reply::Attr(attributes_of(file.ino, &found.inode))),
        Ok(None) => Outcome::Reply(Reply::Refused(Stat::Stale)),
        Err(_) => Outcome::Io,
    }
}
