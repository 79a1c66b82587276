//! Items in place.
ghost use Rattle.std.specs.Prelude.{◌≡◌, ◌≤◌, length};

use arrayvec::ArrayVec;
use std::marker::Model;

/// At most `MOST` items, kept in place, so they take no memory. They are seen as a list.
#[derive(Drop)]
pub struct InPlace<T: Copy + Default, const MOST: usize> {
    kept: ArrayVec<T, MOST>,
}

impl<T: Copy + Default, const MOST: usize> Model for InPlace<T, MOST> {
    ghost use Rattle.std.specs.Prelude.{List};

    ghost Value = { List T };

    ghost view = { λ list. list.kept.items };
}

impl<T: Copy + Default, const MOST: usize> InPlace<T, MOST> {
    /// Copies at most `MOST` items.
    pub fn copy(items: &[T]) -> InPlace<T, MOST>
        requires { length items.now ≤ MOST }
        ensures { result ≡ items.now }
    {
        let mut kept = ArrayVec::new();
        match kept.try_extend_from_slice(items) {
            Ok(()) => {}
            Err(_) => unreachable!(),
        }
        InPlace { kept }
    }

    /// The items, of which there are at most `MOST`.
    pub fn list(&self) -> &[T]
        ensures list { result.now ≡ self.now }
        ensures longest { length result.now ≤ MOST }
    {
        self.kept.as_slice()
    }
}

impl<const MOST: usize> InPlace<u8, MOST> {
    /// The bytes, of which there are at most `MOST`.
    pub fn bytes(&self) -> &[u8]
        ensures bytes { result.now ≡ self.now }
        ensures longest { length result.now ≤ MOST }
    {
        self.list()
    }
}

impl<const MOST: usize> InPlace<u16, MOST> {
    /// The ids, of which there are at most `MOST`.
    pub fn ids(&self) -> &[u16]
        ensures ids { result.now ≡ self.now }
        ensures most { length result.now ≤ MOST }
    {
        self.list()
    }
}
