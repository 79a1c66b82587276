//! The repair of a volume: what can be mended is mended, and what is free then is known.
#![tactic(auto)]

mod free;
mod mended;
mod repairing;

pub use mended::{Mended, Repaired};
pub use repairing::repair;

#[cfg(test)]
mod tests;
