//! The control of a server that runs: one call of the control program, and what its reply says.
#![tactic(auto)]

mod answers;
mod asking;
mod lines;
mod news;
mod running;
mod waiting;
mod words;

pub use running::{LINK_FAILED, USAGE, control};

#[cfg(test)]
mod tests;
