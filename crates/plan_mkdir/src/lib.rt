//! The plan of an MKDIR.
#![tactic(auto)]

mod at_end;
mod building;
mod directories;
mod in_place;
mod judging;
mod making;
mod parents;
mod planning;
mod spare;

pub use at_end::plan_at_end;
pub use directories::{NewDirectory, dots_sector, new_directory};
pub use in_place::plan_in_place;
pub use judging::judge_new;
pub use planning::plan_mkdir;

#[cfg(test)]
mod tests;
