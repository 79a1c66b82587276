ghost use Rattle.std.specs.Prelude.{◌≡◌, ◌≤◌, Some, [], map, drop};
ghost use Rattle.stable.specs.Counts.{Rose};
ghost use Rattle.rig.specs.Links.{heard_from};
ghost use Rattle.rig_mem.specs.Links.{heard_of, sent_of};

use crate::event::MemEvent;
use crate::sent::{SentBytes, SentDatagram};
use rig::{Address, Event, Failed, Link, Packet};
use std::alloc::Global;

/// A link over a list of events. It keeps what it sends, and fails to send only where there is no memory to keep it.
#[derive(Drop)]
pub struct MemLink {
    alloc: Global,
    events: Vec<MemEvent>,
    next: usize,
    sent: Vec<SentDatagram>,
    faults: u64,
}

impl MemLink {
    /// A link that hands these events over, in order, and then Closed.
    pub fn new(alloc: Global, events: Vec<MemEvent>) -> MemLink
        ensures left { ⟦<MemLink as Link>⟧.left result ≡ Some (map heard_of events.items) }
        ensures sent { ⟦<MemLink as Link>⟧.sent result ≡ Some [] }
        ensures faults { ⟦<MemLink as Link>⟧.faults result ≡ 0 }
    {
        MemLink {
            alloc,
            events,
            next: 0,
            sent: Vec::new(alloc),
            faults: 0,
        }
    }

    /// The datagrams that were sent, in order.
    pub fn sent(&self) -> &[SentDatagram]
        ensures { ⟦<MemLink as Link>⟧.sent self.now ≡ Some (map sent_of result.now) }
    {
        self.sent.as_slice()
    }
}

// Puts a datagram's bytes in place, and answers the event.
fn hand_over(event: &MemEvent, into: &mut Packet) -> Event
    ensures { heard_from result into.new ≡ heard_of event.now }
{
    match event {
        MemEvent::Datagram { from, packet } => {
            into.set(packet.bytes());
            Event::Datagram(*from)
        }
        MemEvent::Idle => Event::Idle,
        MemEvent::Closed => Event::Closed,
        MemEvent::Failed => Event::Failed,
    }
}

// The count of faults after an answer.
fn faults_after(faults: u64, answer: &Event) -> u64
    ensures later { faults ≤ result }
    ensures cause { answer.now ≡ Event.Failed → Rose faults result }
{
    match answer {
        Event::Failed => faults.saturating_add(1),
        _ => faults,
    }
}

impl Link for MemLink {
    ghost left = { λ l. Some (drop l.next (map heard_of l.events.items)) };

    ghost sent = { λ l. Some (map sent_of l.sent.items) };

    ghost faults = { λ l. l.faults };

    fn recv(&mut self, into: &mut Packet) -> Event {
        if self.next >= self.events.len() {
            return Event::Closed;
        }
        let answer = hand_over(&self.events[self.next], into);
        self.faults = faults_after(self.faults, &answer);
        self.next += 1;
        answer
    }

    fn send(&mut self, to: &Address, bytes: &[u8]) -> Result<(), Failed> {
        let bytes = match Vec::from_slice(self.alloc, bytes) {
            Ok(kept) => SentBytes::new(kept),
            Err(_) => {
                self.faults = self.faults.saturating_add(1);
                return Err(Failed);
            }
        };
        match self.sent.push(SentDatagram { to: *to, bytes }) {
            Ok(()) => Ok(()),
            Err(_) => {
                self.faults = self.faults.saturating_add(1);
                Err(Failed)
            }
        }
    }
}
