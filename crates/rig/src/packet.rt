ghost use Rattle.std.specs.Prelude.{◌≡◌, ◌≤◌, [], length, take};

use arrayvec::ArrayVec;
use std::marker::Model;

/// The most bytes of a datagram that are kept.
pub const PACKET_BYTES: usize = 9216;

/// The bytes of a datagram, held in place.
#[derive(Drop)]
pub struct Packet {
    kept: ArrayVec<u8, PACKET_BYTES>,
}

impl Model for Packet {
    ghost use Rattle.std.specs.Prelude.{List, ℕ};

    ghost Value = { List ℕ };

    ghost view = { λ p. p.kept.items };
}

impl Packet {
    /// No bytes.
    pub fn new() -> Packet
        ensures { result ≡ [] }
    {
        Packet {
            kept: ArrayVec::new(),
        }
    }

    /// Keeps the first 9,216 bytes in place of what it held.
    pub fn set(&mut self, bytes: &[u8])
        ensures { self.new ≡ take 9216 bytes.now }
    {
        self.kept.clear();
        match self.kept.try_extend_from_slice(front_of(bytes)) {
            Ok(()) => {}
            Err(_) => unreachable!(),
        }
    }

    /// What it holds.
    pub fn bytes(&self) -> &[u8]
        ensures bytes { result.now ≡ self.now }
        ensures fits { length result.now ≤ 9216 }
    {
        self.kept.as_slice()
    }
}

// As many bytes as a packet keeps.
fn front_of(bytes: &[u8]) -> &[u8]
    ensures front { result.now ≡ take 9216 bytes.now }
    ensures fits { length result.now ≤ 9216 }
{
    if bytes.len() > PACKET_BYTES {
        return &bytes[..PACKET_BYTES];
    }
    bytes
}
