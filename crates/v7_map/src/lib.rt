//! What an image of a volume stands for: its files, whether it can be mended, and what plans make of it.
#![tactic(auto)]

mod body;
mod inode;
mod laws;
mod read;
mod super_block;

pub use body::{clip, sectors_of, splice};
pub use inode::{SIZE_LIMIT, attributes_of, is_current, kind_of, with_limits};
pub use laws::{getattr_is_answered, read_is_answered, undamaged_is_weak, weak_is_undamaged};
pub use read::read_refusal_of;
pub use super_block::{has_inode, has_sizes, inodes_of};

#[cfg(test)]
mod tests;
