//! The states of a store between memory and disk.

/// Why a store is in error.
#[derive(Clone, Copy, Debug, PartialEq, Eq)]
pub enum Cause {
    /// A disk write of what was dirty failed.
    Disk,
    /// The board failed to store or to load.
    Board,
    /// The battery was read as low.
    Battery,
}

/// Where puts go. In UP they may stay dirty in the board's memory; in the other states they go to the disk.
#[derive(Clone, Copy, Debug, PartialEq, Eq)]
pub enum State {
    Up,
    /// Nothing is dirty.
    Down,
    Error(Cause),
}
