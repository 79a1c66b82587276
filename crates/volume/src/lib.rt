//! The calls on a volume, over any store of its sectors: it is opened mended, mended again after a failed change, and stopped with its free chain.
#![tactic(auto)]

mod batch;
mod calling;
mod carrying;
mod getattr;
mod giving;
mod lookup;
mod marking;
mod mounted;
mod names;
mod opening;
mod outcome;
mod read;
mod readdir;
mod readlink;
mod setattr;
mod starting;
mod statfs;
mod write;

pub use mounted::Volume;
pub use outcome::{Commit, Outcome};

#[cfg(test)]
mod tests;
