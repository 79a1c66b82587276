//! The free blocks of a volume in which there is nothing to mend are as many as its files leave.
#![tactic(auto)]

mod laws;

pub use laws::free_blocks_are_counted;
