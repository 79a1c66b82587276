//! A board in front of a disk is opened at boot: its entries are recovered.
#![tactic(auto)]

mod fault;
mod finding;
mod opening;
mod parts;
mod preparing;
mod title;

pub use fault::OpenFault;
pub use opening::open;
pub use parts::Opened;

#[cfg(test)]
mod tests;
