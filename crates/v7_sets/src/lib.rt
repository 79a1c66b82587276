//! The free sets of a volume: the blocks and the i-numbers that new files may have.
#![tactic(auto)]

mod sets;

pub use sets::Sets;

#[cfg(test)]
mod tests;
