//! A store in memory, for tests.
#![tactic(auto)]

mod memory;

pub use memory::Memory;

#[cfg(test)]
mod tests;
