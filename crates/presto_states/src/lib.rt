//! The states of a unit in one table, and the ring of its last changes.
#![tactic(auto)]

mod ring;
mod table;
mod track;

pub use ring::Ring;
pub use table::{Happening, next};
pub use track::Track;

#[cfg(test)]
mod tests;
