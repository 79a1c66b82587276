//! Lists that contracts see as lists, of bytes or of any items, and the failure of what makes them.
#![tactic(auto)]

mod bytes;
mod in_place;
mod items;
mod no_memory;

pub use bytes::Bytes;
pub use in_place::InPlace;
pub use items::Items;
pub use no_memory::NoMemory;

#[cfg(test)]
mod tests;
