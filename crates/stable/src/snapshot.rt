//! What a tended store says of itself.

use crate::{Battery, State};

/// A store's state and its counts. `puts` is a count modulo 2 to the 64; the other counts end at 2 to the 64 less 1.
#[derive(Clone, Copy, Debug, PartialEq, Eq)]
pub struct Snapshot {
    pub state: State,
    /// How many sectors are dirty.
    pub dirty: u32,
    /// What the battery was read as at last; low before the first reading.
    pub battery: Battery,
    /// How often a sector was put.
    pub puts: u64,
    /// How often the battery was polled.
    pub polls: u64,
    /// How often Up read the battery.
    pub ups: u64,
    /// How often a dirty sector was tried by a flush of one.
    pub tries: u64,
}
