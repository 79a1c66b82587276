//! The plan of a LINK.
#![tactic(auto)]

mod growth;
mod judging;
mod link_puts;
mod linked;
mod linking;
mod placing;
mod refusals;

pub use linking::plan_link;

#[cfg(test)]
mod tests;
