//! Commands to a tended store, and their answers.

/// What a store is asked to do.
#[derive(Clone, Copy, Debug, PartialEq, Eq)]
pub enum Command {
    /// Use the board's memory, where the battery is good.
    Up,
    /// Flush all that is dirty, and use the disk alone.
    Down,
    /// Flush all that is dirty.
    Flush,
    /// Flush all that is dirty and leave the error.
    Reset,
}

/// What became of a command.
#[derive(Clone, Copy, Debug, PartialEq, Eq)]
pub enum Answer {
    Done,
    /// So many sectors are still dirty, one at least. A device failed in the call.
    Left(u32),
    /// The battery is low, so the store stays DOWN.
    BatteryLow,
    /// The store is in error, and stays so.
    NotDown,
}

/// What became of one flush.
#[derive(Clone, Copy, Debug, PartialEq, Eq)]
pub enum FlushAnswer {
    /// The oldest dirty sector is on the disk, and no longer dirty.
    Flushed,
    /// Nothing is dirty.
    Nothing,
    /// The oldest dirty sector is still dirty. A device failed in the call.
    Stuck,
}
