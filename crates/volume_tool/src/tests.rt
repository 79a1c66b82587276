//! Runs over rigs in memory: volumes that are made, inspected and recovered, and what is refused.

mod making;
mod mending;
mod mute;
mod outside;
mod refusals;
