//! What a worker keeps from turn to turn.
ghost use Rattle.std.specs.Prelude.{◌≡◌, ◌+◌, ◌<◌, ◌^◌};

use rig::Packet;

/// How many datagrams a worker took, and what became of them.
#[derive(Clone, Copy, Debug, PartialEq, Eq)]
pub struct Numbers {
    pub received: u64,
    pub answered: u64,
    pub dropped: u64,
    ghost whole: { received ≡ answered + dropped },
}

impl Numbers {
    pub fn new() -> Numbers
        ensures received { result.received ≡ 0 }
        ensures answered { result.answered ≡ 0 }
    {
        Numbers {
            received: 0,
            answered: 0,
            dropped: 0,
        }
    }

    /// One datagram more, which was answered.
    pub fn with_answered(self) -> Numbers
        requires { self.received < 2 ^ 48 }
        ensures received { result.received ≡ self.received + 1 }
        ensures answered { result.answered ≡ self.answered + 1 }
    {
        Numbers {
            received: self.received + 1,
            answered: self.answered + 1,
            dropped: self.dropped,
        }
    }

    /// One datagram more, which was not answered.
    pub fn with_dropped(self) -> Numbers
        requires { self.received < 2 ^ 48 }
        ensures received { result.received ≡ self.received + 1 }
        ensures answered { result.answered ≡ self.answered }
    {
        Numbers {
            received: self.received + 1,
            answered: self.answered,
            dropped: self.dropped + 1,
        }
    }
}

/// A worker's number, the second of its last turn, its numbers of datagrams, and the datagram that it took last.
#[derive(Drop)]
pub struct ServerPass {
    pub number: u32,
    pub second: u32,
    pub numbers: Numbers,
    pub packet: Packet,
}

impl ServerPass {
    /// The pass of a worker that has taken no turn yet, since this second.
    pub fn new(number: u32, second: u32) -> ServerPass
        ensures number { result.number ≡ number }
        ensures second { result.second ≡ second }
        ensures received { result.numbers.received ≡ 0 }
        ensures answered { result.numbers.answered ≡ 0 }
    {
        ServerPass {
            number,
            second,
            numbers: Numbers::new(),
            packet: Packet::new(),
        }
    }
}
