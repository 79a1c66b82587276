//! One hold of a volume for one call.
ghost use Rattle.nfs_worker.specs.Served.{Serves};
ghost use Rattle.nfs_worker.specs.Tending.{IsUntended};
ghost use Rattle.nfs_worker.specs.Resting.{StaysAtRest};
ghost use Rattle.volume.specs.Mounted.{store_of};
ghost use Rattle.volume.specs.Rests.{Rests};

use crate::releasing::Ready;
use files_model::{Call, Cred};
use nfs2_proc::{Handled, handle};
use nfs2_wire::{Room, longest};
use rig::Address;
use stable::Tended;
use std::alloc::Global;
use volume::Volume;

/// What became of a call.
#[derive(Drop)]
pub enum Served {
    /// This reply is to be sent.
    Ready(Ready),
    /// There was no memory. No file has changed, and there is no event.
    NoMemory,
}

/// Serves one call on the volume of this number for a worker, all at this second. The reply's room is reserved before the call is made, and a volume that is hurt is
/// mended in it.
pub fn serve_call<S: Tended>(
    alloc: Global,
    volume: &mut Volume<S>,
    at: u32,
    number: u32,
    xid: u32,
    from: Address,
    call: &Call,
    cred: &Cred,
    now: u32,
) -> Served
    requires rest { Rests S.Stable volume.old }
    ensures rest { StaysAtRest S.Stable volume.old volume.new }
    ensures served { Serves S.Stable at (store_of volume.old) (store_of volume.new) number now (record { xid = xid; from = from; call = call.now; cred = cred.now }) result }
    ensures untended { IsUntended (S.snapshot_of (store_of volume.old)) (S.snapshot_of (store_of volume.new)) }
{
    let Ok(room) = Room::new(alloc, longest(call)) else {
        return Served::NoMemory;
    };
    match handle(volume, at, xid, call, cred, now, room) {
        Handled::Bytes(bytes) => Served::Ready(Ready { bytes, to: from }),
        Handled::NoMemory(_) => Served::NoMemory,
    }
}
