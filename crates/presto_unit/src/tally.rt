//! What a unit counts.
ghost use Rattle.std.specs.Prelude.{◌^◌, ◌<◌};

use stable::Battery;

/// The counts of a snapshot, and the battery as it was read at last.
#[derive(Drop)]
pub struct Tally {
    pub battery: Battery,
    pub puts: u64,
    pub polls: u64,
    pub ups: u64,
    pub tries: u64,
    pub ghost fits: { puts < 2 ^ 64 },
}

impl Tally {
    ghost use Rattle.presto_unit.specs.Shown.{AreNone};

    /// Nothing was counted yet.
    pub fn new() -> Tally
        ensures { AreNone result }
    {
        Tally {
            battery: Battery::Low,
            puts: 0,
            polls: 0,
            ups: 0,
            tries: 0,
        }
    }
}
