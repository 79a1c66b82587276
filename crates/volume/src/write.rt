// WRITE (RFC 1094 2.2.9).
ghost use Rattle.std.specs.Prelude.{◌≡◌, ◌≤◌, ◌∷◌, [], false, length};
ghost use Rattle.files_model.specs.declared.call.Call.TheVariants.{Write};
ghost use Rattle.plan_file.specs.Planned.{plan_puts};
ghost use Rattle.stable.specs.Store.{StaysOpenable};
ghost use Rattle.v7_map.specs.View.{view};
ghost use Rattle.volume.specs.Applied.{Applies, hurts};
ghost use Rattle.volume.specs.Costs.{CostsAtMost, call_cost};
ghost use Rattle.volume.specs.Rests.{RestsOn};

use crate::batch::make_batch;
use crate::outcome::{Commit, Outcome};
use arrayvec::ArrayVec;
use files_model::{Cred, Data, FileId, Gids, Reply, WriteItem};
use stable::Stable;
use std::alloc::Global;
use v7_sets::Sets;

// A credential once more.
fn copied(cred: &Cred) -> Cred
    ensures { result ≡ cred.now }
{
    Cred {
        uid: cred.uid,
        gid: cred.gid,
        gids: Gids::copy(cred.gids.list()),
    }
}

// The one reply to a batch of one.
fn only(mut replies: ArrayVec<Reply, 16>) -> Reply
    requires { length replies.items ≡ 1 }
    ensures { replies.items ≡ result ∷ [] }
{
    match replies.pop() {
        Some(reply) => reply,
        None => unreachable!(),
    }
}

/// Writes bytes to a file: a batch of one write.
pub fn write<S: Stable>(
    alloc: Global,
    store: &mut S,
    sets: &mut Sets,
    file: FileId,
    offset: u32,
    bytes: &[u8],
    cred: &Cred,
    now: u32,
) -> Outcome
    requires short { length bytes.now ≤ 8192 }
    requires rest { RestsOn S.Stable store.old false sets.old }
    ensures rest { RestsOn S.Stable store.new (hurts (Write file offset bytes.now) result) sets.new }
    ensures applied { Applies S.Stable store.old store.new false (hurts (Write file offset bytes.now) result) (Write file offset bytes.now) cred.now now result }
    ensures opens { StaysOpenable S.opens_since S.moment store.old store.new }
    ensures sectors { S.sector_count store.new ≡ S.sector_count store.old }
    ensures snapshot { CostsAtMost S.Stable store.old store.new false plan_puts (call_cost (view (S.image store.old)) (Write file offset bytes.now) cred.now now) }
{
    let Ok(bytes) = Data::copy(alloc, bytes) else {
        return Outcome::NoMemory;
    };
    let cred = copied(cred);
    let batch = [WriteItem {
        cred,
        offset,
        bytes,
    }];
    match make_batch(alloc, store, sets, file, &batch, now) {
        Commit::Replies(replies) => Outcome::Reply(only(replies)),
        Commit::Io => Outcome::Io,
        Commit::NoMemory => Outcome::NoMemory,
    }
}
