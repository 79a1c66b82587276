//! One call of the control program.
ghost use Rattle.presto_rpc.specs.Sending.{IsAsked};
ghost use Rattle.presto_control.specs.Asking.{Asks};

use crate::answers::XID;
use crate::waiting::{Ending, wait};
use presto_rpc::{Control, write_control};
use rig::{Address, Failed, Link};

/// Sends one datagram that asks for this, and waits for its reply.
pub fn ask<L: Link>(asked: &Control, to: &Address, link: &mut L) -> Ending
    requires { IsAsked asked.now }
    ensures { Asks L.Link asked.now to.now link.old link.new result }
{
    let datagram = write_control(XID, asked);
    match link.send(to, datagram.bytes()) {
        Ok(()) => wait(asked, link),
        Err(Failed) => Ending::Broken,
    }
}
