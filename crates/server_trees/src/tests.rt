//! Runs over memory: trees, and sessions of the programs.

mod cuts;
mod disks;
mod limits;
mod listings;
mod moves;
mod refusals;
mod sessions;
mod walks;
