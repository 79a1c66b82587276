//! The plan of an RMDIR.
#![tactic(auto)]

mod child;
mod judging;
mod planning;
mod puts;

pub use planning::plan_rmdir;

#[cfg(test)]
mod tests;
