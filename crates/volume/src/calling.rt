// One call on a volume with nothing to mend.
ghost use Rattle.std.specs.Prelude.{◌≡◌, false};
ghost use Rattle.files_model.specs.Step.{is_change};
ghost use Rattle.stable.specs.Store.{StaysOpenable};
ghost use Rattle.v7_map.specs.View.{view};
ghost use Rattle.volume.specs.Applied.{Applies, hurts};
ghost use Rattle.volume.specs.Costs.{CostsAtMost, call_cost, most_puts};
ghost use Rattle.volume.specs.Rests.{RestsOn};

use crate::getattr::getattr;
use crate::lookup::lookup;
use crate::names::change_names;
use crate::outcome::Outcome;
use crate::read::read;
use crate::readdir::readdir;
use crate::readlink::readlink;
use crate::setattr::setattr;
use crate::statfs::statfs;
use crate::write::write;
use files_model::{Call, Cred};
use stable::Stable;
use std::alloc::Global;
use v7_sets::Sets;

// Whether a call changes files.
fn changes(call: &Call) -> bool
    ensures { result ≡ is_change call.now }
{
    !matches!(
        call,
        Call::Getattr { .. }
            | Call::Lookup { .. }
            | Call::Readlink { .. }
            | Call::Read { .. }
            | Call::Readdir { .. }
            | Call::Statfs { .. }
    )
}

/// Whether a volume is hurt after a call that ended so.
pub fn is_hurt_by(call: &Call, outcome: &Outcome) -> bool
    ensures { result ≡ hurts call.now outcome.now }
{
    match outcome {
        Outcome::Io => changes(call),
        Outcome::Reply(_) => false,
        Outcome::NoMemory => false,
    }
}

/// Makes a call on the volume of a store. One that changes no file puts nothing.
pub fn make_call<S: Stable>(
    alloc: Global,
    store: &mut S,
    sets: &mut Sets,
    call: &Call,
    cred: &Cred,
    now: u32,
) -> Outcome
    requires rest { RestsOn S.Stable store.old false sets.old }
    ensures rest { RestsOn S.Stable store.new (hurts call.now result) sets.new }
    ensures applied { Applies S.Stable store.old store.new false (hurts call.now result) call.now cred.now now result }
    ensures opens { StaysOpenable S.opens_since S.moment store.old store.new }
    ensures sectors { S.sector_count store.new ≡ S.sector_count store.old }
    ensures snapshot { CostsAtMost S.Stable store.old store.new false (most_puts call.now) (call_cost (view (S.image store.old)) call.now cred.now now) }
{
    match call {
        Call::Getattr { file } => getattr(store, *file, cred, now),
        Call::Setattr { file, set } => setattr(alloc, store, sets, *file, set, cred, now),
        Call::Read {
            file,
            offset,
            count,
        } => read(alloc, store, *file, *offset, *count, cred, now),
        Call::Write {
            file,
            offset,
            bytes,
        } => write(alloc, store, sets, *file, *offset, bytes.bytes(), cred, now),
        Call::Lookup { dir, name } => lookup(store, *dir, name, cred, now),
        Call::Create { .. } => change_names(alloc, store, sets, call, cred, now),
        Call::Remove { .. } => change_names(alloc, store, sets, call, cred, now),
        Call::Mkdir { .. } => change_names(alloc, store, sets, call, cred, now),
        Call::Rename { .. } => change_names(alloc, store, sets, call, cred, now),
        Call::Symlink { .. } => change_names(alloc, store, sets, call, cred, now),
        Call::Link { .. } => change_names(alloc, store, sets, call, cred, now),
        Call::Rmdir { .. } => change_names(alloc, store, sets, call, cred, now),
        Call::Readlink { file } => readlink(alloc, store, *file, cred, now),
        Call::Readdir { dir, cookie, count } => {
            readdir(alloc, store, *dir, *cookie, *count, cred, now)
        }
        Call::Statfs { file } => statfs(store, sets, *file, cred, now),
    }
}
