//! Small volumes over a store in memory, with what is free on them, and what their tests ask of a plan.
#![tactic(auto)]

mod checks;
mod small;

pub use checks::{sectors_put, times};
pub use small::{NOTHING, ROOT_ID, Small, user};
