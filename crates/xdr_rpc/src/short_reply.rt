//! Replies of a few words.
ghost use Rattle.std.specs.Prelude.{◌≡◌, ◌≤◌, length};
ghost use Rattle.xdr_rpc.specs.Words.{words};

use byteorder::{BigEndian, ByteOrder};
use lists::InPlace;

/// A short reply as it goes out: at most 48 bytes, kept in place, so it takes no memory.
pub type ShortReply = InPlace<u8, 48>;

/// A reply of at most twelve words, each as four bytes (RFC 1014 3.2).
#[tactic(auto, unfolding(crate::specs::Words::words))]
pub fn reply_of_words(numbers: &[u32]) -> ShortReply
    requires { length numbers.now ≤ 12 }
    ensures { result ≡ words numbers.now }
{
    let mut bytes = [0; 48];
    let written = &mut bytes[..4 * numbers.len()];
    BigEndian::write_u32_into(numbers, written);
    ShortReply::copy(written)
}
