//! A board in front of a disk, as one store: its state, its battery, its commands, and how its entries go to the disk.
#![tactic(auto)]

mod flush;
mod presto;
mod read;
mod tally;
mod tend;
mod through;
mod up;

pub use flush::flush_all;
pub use presto::Presto;
pub use read::read_through;
