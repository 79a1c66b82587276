//! Runs of the server over memory, for the tests of several crates: what a host gives, volumes and boards, and datagrams.
#![tactic(auto)]

pub mod asking;
pub mod boards;
pub mod cuts;
pub mod disks;
pub mod outside;
pub mod turns;
pub mod volumes;
pub mod worked;
