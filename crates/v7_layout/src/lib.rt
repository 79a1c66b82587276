//! The records of a volume, as its sectors hold them: super-block, chain record, inode and directory slot.
#![tactic(auto)]

mod chain;
mod fields;
mod inode;
mod shared;
mod slot;
mod super_block;

pub use chain::Chain;
pub use inode::Inode;
pub use shared::Record;
pub use slot::Slot;
pub use super_block::Super;

#[cfg(test)]
mod tests;
