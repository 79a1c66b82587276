// The chain record, a block of the free chain.

ghost use Rattle.std.specs.Prelude.{⊤};
ghost use Rattle.v7_layout.specs.Records.{chain_of};
ghost use Rattle.v7_layout.specs.Written.{chain_bytes};

use crate::fields::{blocks_at, put_blocks, put_short, put_zeros, short_at};
use crate::shared::Record;

/// A chain record as the 512 bytes of a free block have it (filsys(5)). It takes the place of the
/// super-block's list of free blocks once that list is used up.
#[derive(Clone, Copy, Debug, PartialEq, Eq)]
pub struct Chain {
    /// How many places of `s_free` are used.
    pub s_nfree: u16,
    /// Addresses of free blocks. The first is the next chain record, and 0 there is the end of the chain.
    pub s_free: [u32; 50],
}

impl Record for Chain {
    ghost size = { 512 };

    ghost of = { chain_of };

    ghost fits = { λ any. ⊤ };

    ghost written = { chain_bytes };

    /// The chain record of 512 bytes. Any bytes are one, and the last 310 are passed over.
    #[tactic(auto, unfolding(crate::specs::Records::chain_of))]
    fn read(bytes: &[u8]) -> Self {
        Chain {
            s_nfree: short_at(bytes, 0),
            s_free: blocks_at(bytes, 2),
        }
    }

    /// Writes the chain record as 512 bytes, of which the last 310 are zeros.
    fn write(&self, bytes: &mut [u8]) {
        put_short(bytes, 0, self.s_nfree);
        put_blocks(bytes, 2, &self.s_free);
        put_zeros(bytes, 202);
    }
}
