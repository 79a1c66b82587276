// One call on a volume, answered.
ghost use Rattle.std.specs.Prelude.{◌≡◌, ◌≤◌};
ghost use Rattle.nfs2_proc.specs.Handles.{Handles};
ghost use Rattle.nfs2_wire.specs.Replies.{longest_of};
ghost use Rattle.stable.specs.Store.{StaysOpenable};
ghost use Rattle.v7_map.specs.View.{view};
ghost use Rattle.volume.specs.Costs.{CostsAtMost, call_cost, most_puts};
ghost use Rattle.volume.specs.Mounted.{KeepsTitle, is_hurt, store_of};
ghost use Rattle.volume.specs.Rests.{Rests};

use files_model::{Call, Cred, Reply, Stat};
use nfs2_wire::{Room, write_reply};
use stable::Tended;
use volume::{Outcome, Volume};
use xdr_rpc::ReplyBytes;

/// What became of a call.
#[derive(Drop)]
pub enum Handled {
    /// The bytes of its reply.
    Bytes(ReplyBytes),
    /// There was no memory. No file has changed, and this is the room that was given.
    NoMemory(Room),
}

/// Makes a call on the volume of this number, all at this second, and writes its reply (RFC 1094 2.2): that of the step, or IO where a device failed. A volume that is
/// hurt is mended first. The reply's room is reserved by the caller before the call is made, so no reply finds no memory.
pub fn handle<S: Tended>(
    volume: &mut Volume<S>,
    number: u32,
    xid: u32,
    call: &Call,
    cred: &Cred,
    now: u32,
    room: Room,
) -> Handled
    requires rest { Rests S.Stable volume.old }
    requires room { longest_of call.now ≤ room }
    ensures rest { Rests S.Stable volume.new }
    ensures handled { Handles S.Stable (store_of volume.old) (store_of volume.new) (is_hurt volume.old) (is_hurt volume.new) number xid call.now cred.now now room result }
    ensures opens { StaysOpenable S.opens_since S.moment (store_of volume.old) (store_of volume.new) }
    ensures sectors { S.sector_count (store_of volume.new) ≡ S.sector_count (store_of volume.old) }
    ensures titled { KeepsTitle volume.old volume.new }
    ensures snapshot { CostsAtMost S.Stable (store_of volume.old) (store_of volume.new) (is_hurt volume.old) (most_puts call.now) (call_cost (view (S.image (store_of volume.old))) call.now cred.now now) }
{
    match volume.apply(call, cred, now) {
        Outcome::Reply(reply) => Handled::Bytes(write_reply(room, xid, &reply, number)),
        Outcome::Io => Handled::Bytes(write_reply(room, xid, &Reply::Refused(Stat::Io), number)),
        Outcome::NoMemory => Handled::NoMemory(room),
    }
}
