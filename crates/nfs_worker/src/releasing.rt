//! A reply is sent, once.
ghost use Rattle.std.specs.Prelude.{◌≡◌};
ghost use Rattle.nfs_worker.specs.Served.{Releases};

use rig::{Address, Link};
use xdr_rpc::ReplyBytes;

/// The reply to a call whose hold has ended, and to whom. It can't be copied, so it is sent at most once.
#[derive(Drop)]
pub struct Ready {
    pub bytes: ReplyBytes,
    pub to: Address,
}

/// What became of a reply.
#[derive(Clone, Copy, Debug, PartialEq, Eq)]
pub enum Released {
    /// The link took it.
    Sent,
    /// The link failed, and nothing was sent.
    SendFailed,
}

/// Sends bytes to an address.
pub fn send<L: Link>(link: &mut L, to: &Address, bytes: &[u8]) -> Released
    ensures { Releases L.Link result link.old link.new (to.now, bytes.now) }
{
    match link.send(to, bytes) {
        Ok(()) => Released::Sent,
        Err(_) => Released::SendFailed,
    }
}

/// Sends a reply. What was called stays done whatever becomes of it.
pub fn release<L: Link>(link: &mut L, ready: Ready) -> Released
    ensures { Releases L.Link result link.old link.new (ready.to, ready.bytes) }
{
    send(link, &ready.to, ready.bytes.bytes())
}
