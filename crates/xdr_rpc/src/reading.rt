//! Words and bytes at the front of bytes (RFC 1014).
ghost use Rattle.std.specs.Prelude.{◌≡◌, ◌≤◌, length, IfSome};
ghost use Rattle.xdr_rpc.specs.Words.{Gives, word, fixed, padded, padding, opaque};

use byteorder::{BigEndian, ByteOrder};

/// The word at the front, its high byte first, and the bytes after it (RFC 1014 3.2).
#[tactic(auto, unfolding(crate::specs::Words::word))]
pub fn word_at(bytes: &[u8]) -> Option<(u32, &[u8])>
    ensures value { Gives (λ x. (x.0, x.1.now)) result (word bytes.now) }
    ensures shorter { IfSome result (λ x. length x.1.now ≤ length bytes.now) }
{
    if bytes.len() < 4 {
        return None;
    }
    Some((BigEndian::read_u32(bytes), &bytes[4..]))
}

/// The first `len` bytes, and the bytes after them (RFC 1014 3.8).
#[tactic(auto, unfolding(crate::specs::Words::fixed))]
pub fn fixed_at(bytes: &[u8], len: usize) -> Option<(&[u8], &[u8])>
    ensures value { Gives (λ x. (x.0.now, x.1.now)) result (fixed len bytes.now) }
    ensures long { IfSome result (λ x. length x.0.now ≡ len) }
    ensures shorter { IfSome result (λ x. length x.1.now ≤ length bytes.now) }
{
    if bytes.len() < len {
        return None;
    }
    Some((&bytes[..len], &bytes[len..]))
}

/// How many bytes follow so many bytes, up to a multiple of four (RFC 1014 3.9).
pub fn padding_after(len: usize) -> usize
    ensures { result ≡ padding len }
{
    (4 - len % 4) % 4
}

/// The first `len` bytes, and the bytes after their padding (RFC 1014 3.9).
#[tactic(auto, unfolding(crate::specs::Words::padded))]
pub fn padded_at(bytes: &[u8], len: usize) -> Option<(&[u8], &[u8])>
    ensures value { Gives (λ x. (x.0.now, x.1.now)) result (padded len bytes.now) }
    ensures long { IfSome result (λ x. length x.0.now ≡ len) }
    ensures shorter { IfSome result (λ x. length x.1.now ≤ length bytes.now) }
{
    let (body, rest) = fixed_at(bytes, len)?;
    let (_, rest) = fixed_at(rest, padding_after(len))?;
    Some((body, rest))
}

/// A length of at most `bound` and so many bytes, and the bytes after their padding (RFC 1014 3.9).
#[tactic(auto, unfolding(crate::specs::Words::opaque))]
pub fn opaque_at(bytes: &[u8], bound: u32) -> Option<(&[u8], &[u8])>
    ensures value { Gives (λ x. (x.0.now, x.1.now)) result (opaque bound bytes.now) }
    ensures bound { IfSome result (λ x. length x.0.now ≤ bound) }
    ensures shorter { IfSome result (λ x. length x.1.now ≤ length bytes.now) }
{
    let (len, rest) = word_at(bytes)?;
    if len > bound {
        return None;
    }
    padded_at(rest, len as usize)
}
