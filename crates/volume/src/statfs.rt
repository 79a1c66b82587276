// STATFS (RFC 1094 2.2.18).
ghost use Rattle.std.specs.Prelude.{◌≡◌, ◌+◌, ◌-◌, ◌/◌, length, false};
ghost use Rattle.files_model.specs.declared.call.Call.TheVariants.{Statfs};
ghost use Rattle.stable.specs.Looked.{Looked};
ghost use Rattle.volume.specs.Applied.{IsApplied};
ghost use Rattle.volume.specs.Rests.{RestsOn};

use crate::outcome::Outcome;
use files_model::{Cred, FileId, Reply, Stat};
use stable::Stable;
use v7_read::find;
use v7_sets::Sets;

// How many data blocks a volume has, by the sizes of its sets: a bit for each block, and one for each i-number and 0. The list of inodes, eight to
// a block, begins at block 2, and the data blocks after it.
fn data_blocks(sets: &Sets) -> u32
    ensures { result ≡ length sets.now.blocks - (2 + (length sets.now.inodes - 1) / 8) }
{
    let first = 2 + sets.inodes.size().saturating_sub(1) / 8;
    sets.blocks.size().saturating_sub(first)
}

/// Tells how many data blocks the file's volume has, and how many of them are free. Nothing is changed.
pub fn statfs<S: Stable>(store: &mut S, sets: &Sets, file: FileId, cred: &Cred, now: u32) -> Outcome
    requires rest { RestsOn S.Stable store.old false sets.now }
    ensures applied { IsApplied S.Stable store.old store.new (Statfs file) cred.now now result }
    ensures looked { Looked S.Stable store.old store.new }
{
    match find(store, file) {
        Ok(Some(_)) => Outcome::Reply(Reply::Space {
            blocks: data_blocks(sets),
            free: sets.blocks.count(),
        }),
        Ok(None) => Outcome::Reply(Reply::Refused(Stat::Stale)),
        Err(_) => Outcome::Io,
    }
}
