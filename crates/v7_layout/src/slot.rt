// The directory slot, 16 bytes of a directory's contents.

ghost use Rattle.std.specs.Prelude.{⊤};
ghost use Rattle.v7_layout.specs.Records.{slot_of_bytes};
ghost use Rattle.v7_layout.specs.Written.{slot_bytes};

use crate::fields::{bytes_at, put_bytes, put_short, short_at};
use crate::shared::Record;

/// A directory slot as its 16 bytes have it.
#[derive(Clone, Copy, Debug, PartialEq, Eq)]
pub struct Slot {
    /// The i-number of the file that it names. 0 is an empty slot.
    pub ino: u16,
    /// The name, which ends at its first zero byte.
    pub name: [u8; 14],
}

impl Record for Slot {
    ghost size = { 16 };

    ghost of = { slot_of_bytes };

    ghost fits = { λ any. ⊤ };

    ghost written = { slot_bytes };

    /// The slot of 16 bytes. Any bytes are one.
    #[tactic(auto, unfolding(crate::specs::Records::slot_of_bytes))]
    fn read(bytes: &[u8]) -> Self {
        Slot {
            ino: short_at(bytes, 0),
            name: bytes_at(bytes, 2),
        }
    }

    /// Writes the slot as 16 bytes.
    fn write(&self, bytes: &mut [u8]) {
        put_short(bytes, 0, self.ino);
        put_bytes(bytes, 2, &self.name);
    }
}
