//! The slots of a directory: the slot of a name, an empty slot, and which names may be made.
#![tactic(auto)]

mod name;
mod slots;

pub use name::{MOST_NAME, good_name, is_bad, is_dots};
pub use slots::{find, first_empty};

#[cfg(test)]
mod tests;
