//! The inspection of a volume: its damage, or what is in it.
#![tactic(auto)]

mod inspection;
mod judged;
mod needs;
mod seen;
mod summed;
mod tally;

pub use inspection::{inspect, seen_of};
pub use judged::{Judged, judge_inodes};
pub use seen::Seen;
pub use summed::is_named;
pub use v7_damage::{Damage, RepairFault};

#[cfg(test)]
mod tests;
