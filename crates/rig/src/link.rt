ghost use Rattle.std.specs.Prelude.{◌≡◌, ◌≤◌, ℕ, List, Option, OnOk, OnErr};
ghost use Rattle.stable.specs.Counts.{Rose, HasCause};
ghost use Rattle.rig.specs.Links.{Heard, heard_from, Takes, gains};
ghost use Rattle.files_model.specs.declared.address.Address.{Address};

use crate::{Address, Failed, Packet};

/// What a link hands over.
#[derive(Clone, Copy, Debug, PartialEq, Eq)]
pub enum Event {
    /// A datagram from that address; its bytes, up to 9,216, are in the packet.
    Datagram(Address),
    /// Nothing has come for now.
    Idle,
    /// Nothing will come any more.
    Closed,
    /// The link failed at this one.
    Failed,
}

/// Takes in datagrams and sends others.
pub trait Link {
    /// The events that are left, where the link tells them.
    ghost left: { Self → Option (List Heard) };

    /// The datagrams that it took to send, in order, where it tells them.
    ghost sent: { Self → Option (List (Address × List ℕ)) };

    /// How often a call failed, up to 2 to the 64 less 1.
    ghost faults: { Self → ℕ };

    /// Takes the next event. Where it is no datagram, `into` holds any bytes.
    fn recv(&mut self, into: &mut Packet) -> Event
        ensures takes { Takes (left self.old) (heard_from result into.new) (left self.new) }
        ensures sent { sent self.new ≡ sent self.old }
        ensures later { faults self.old ≤ faults self.new }
        ensures cause { result ≡ Event.Failed → Rose (faults self.old) (faults self.new) };

    /// Sends a datagram. After Failed none was sent.
    fn send(&mut self, to: &Address, bytes: &[u8]) -> Result<(), Failed>
        ensures left { left self.new ≡ left self.old }
        ensures sent { OnOk result (sent self.new ≡ gains (sent self.old) (to.now, bytes.now)) }
        ensures unsent { OnErr result (sent self.new ≡ sent self.old) }
        ensures cause { HasCause (faults self.old) (faults self.new) result };
}
