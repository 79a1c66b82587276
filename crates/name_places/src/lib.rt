//! Where a name stands in a directory, or where a new entry of it comes.
#![tactic(auto)]

mod place;

pub use place::{NamePlace, find_place};
