//! A small volume in memory, for tests: a root, and one file in it.
#![tactic(auto)]

mod records;
mod sectors;

pub use records::{FRESH, ROOT, Shape, WRITTEN, file};
pub use sectors::{sectors_of, test_volume};
