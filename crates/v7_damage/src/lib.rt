//! Damage of a volume: the first test that fails, or what the tests have found out.
#![tactic(auto)]

mod bodies;
mod damage;
mod directories;
mod inodes;
mod listed;
mod marks;
mod names;
mod noted;
mod parents;
mod places;
mod reader;
mod slots;
mod summary;
mod tally;
mod tested;
mod tidy;
mod walk;

pub use bodies::body_block;
pub use damage::{Damage, RepairFault};
pub use marks::Marks;
pub use reader::InodeReader;
pub use summary::Summary;
pub use tested::{Undamaged, find_damage};

#[cfg(test)]
mod tests;
