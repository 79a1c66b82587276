//! Items of any number.
ghost use Rattle.std.specs.Prelude.{◌≡◌};

use std::marker::Model;

/// Items in their order, seen as a list.
#[derive(Drop)]
pub struct Items<T: Drop> {
    kept: Vec<T>,
}

impl<T: Drop> Model for Items<T> {
    ghost use Rattle.std.specs.Prelude.{List};

    ghost Value = { List T };

    ghost view = { λ items. items.kept.items };
}

impl<T: Drop> Items<T> {
    /// Takes the items of a vector.
    pub fn new(kept: Vec<T>) -> Items<T>
        ensures { result ≡ kept.items }
    {
        Items { kept }
    }

    /// The items.
    pub fn list(&self) -> &[T]
        ensures { result.now ≡ self.now }
    {
        self.kept.as_slice()
    }
}

impl Items<u8> {
    /// The bytes.
    pub fn bytes(&self) -> &[u8]
        ensures { result.now ≡ self.now }
    {
        self.list()
    }
}
