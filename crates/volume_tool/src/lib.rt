//! The tool of volumes: one is made, inspected, or mended and stopped.
#![tactic(auto)]

mod boarded;
mod checking;
mod lines;
mod making;
mod recovering;
mod running;
mod telling;
mod words;

pub use running::tool;
pub use telling::USAGE;

#[cfg(test)]
mod tests;
