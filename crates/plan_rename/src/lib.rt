//! The plan of a RENAME.
#![tactic(auto)]

mod judging;
mod lengthening;
mod planning;
mod putting;
mod refusals;

pub use planning::plan_rename;

#[cfg(test)]
mod tests;
