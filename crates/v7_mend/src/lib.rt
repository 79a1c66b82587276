//! The mending of a volume that can be mended: its files stay at each moment, and afterwards there is nothing to mend.
#![tactic(auto)]

mod passes;
mod put;
mod settle;
mod settle_all;
mod settled;
mod trim;
mod trim_all;

pub use passes::mend;

#[cfg(test)]
mod tests;
