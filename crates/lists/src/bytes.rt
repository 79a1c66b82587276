//! Bytes with a greatest length.
ghost use Rattle.std.specs.Prelude.{◌≡◌, ◌≤◌, length, IfOk};

use crate::NoMemory;
use std::alloc::Global;
use std::marker::Model;

/// At most `MOST` bytes, seen as a list.
#[derive(Drop)]
pub struct Bytes<const MOST: usize> {
    kept: Vec<u8>,
}

impl<const MOST: usize> Model for Bytes<MOST> {
    ghost use Rattle.std.specs.Prelude.{List, ℕ, ◌≤◌, length};

    ghost Value = { List ℕ };

    ghost view = { λ bytes. bytes.kept.items };

    ghost invariant = { λ bytes. length bytes.kept.items ≤ MOST };
}

impl<const MOST: usize> Bytes<MOST> {
    /// Takes at most `MOST` bytes.
    pub fn new(kept: Vec<u8>) -> Bytes<MOST>
        requires { length kept.items ≤ MOST }
        ensures { result ≡ kept.items }
    {
        Bytes { kept }
    }

    /// Copies at most `MOST` bytes.
    pub fn copy(alloc: Global, bytes: &[u8]) -> Result<Bytes<MOST>, NoMemory>
        requires { length bytes.now ≤ MOST }
        ensures { IfOk result (λ copied. copied ≡ bytes.now) }
    {
        let kept = Vec::from_slice(alloc, bytes)?;
        Ok(Bytes { kept })
    }

    /// The bytes, of which there are at most `MOST`.
    pub fn bytes(&self) -> &[u8]
        ensures bytes { result.now ≡ self.now }
        ensures longest { length result.now ≤ MOST }
    {
        self.kept.as_slice()
    }
}
