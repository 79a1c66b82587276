ghost use Rattle.std.specs.Prelude.{◌≡◌};
ghost use Rattle.std.specs.Duration.{as_nanos};

use rig::{Pauser, Point};
use std::time::Duration;
use std::{rt, thread};

/// Waits by sleeping.
#[derive(Drop)]
pub struct SleepPauser<T> {
    system: T,
    nap: Duration,
}

impl<T> SleepPauser<T> {
    /// A pauser on that system's clock, which sleeps a millisecond at each pause.
    pub fn new(system: T) -> SleepPauser<T>
        ensures system { result.system ≡ system }
        ensures nap { as_nanos result.nap ≡ 1000000 }
    {
        SleepPauser {
            system,
            nap: Duration::from_millis(1),
        }
    }
}

impl<T: rt::Clock + Drop> Pauser for SleepPauser<T> {
    fn pause(&mut self) {
        thread::sleep(&self.system, self.nap);
    }

    fn gate(&mut self, _point: Point) {}
}
