ghost use Rattle.std.specs.Prelude.{◌≡◌, ◌/◌, ◌^◌, ◌-◌, ℕ, min, Some, None};
ghost use Rattle.std.specs.Time.{system_time_nanos};

use crate::count::count;
use rig::Clock;
use std::rt;
use std::time::SystemTime;

/// The system's clock.
#[derive(Drop)]
pub struct SystemClock<T> {
    system: T,
    last: Option<u32>,
    answers: u64,
    changes: u64,
}

impl<T> SystemClock<T> {
    /// It has not answered yet.
    pub fn new(system: T) -> SystemClock<T>
        ensures last { result.last ≡ None }
        ensures answers { result.answers ≡ 0 }
        ensures changes { result.changes ≡ 0 }
    {
        SystemClock {
            system,
            last: None,
            answers: 0,
            changes: 0,
        }
    }
}

/// The seconds since 1970, up to 2 to the 32 less 1; 0 before 1970 and where the clock can't be read.
pub fn seconds(system: &impl rt::Clock) -> u32 {
    match SystemTime::now(system) {
        Ok(now) => seconds_at(now),
        Err(_) => 0,
    }
}

// The whole seconds of a reading, which counts from 1970 on.
fn seconds_at(now: SystemTime) -> u32
    ensures { result ≡ min (system_time_nanos now / 1000000000) (2 ^ 32 - 1) }
{
    match now.duration_since(SystemTime::UNIX_EPOCH) {
        Ok(since) => since.as_secs().min(u64::from(u32::MAX)) as u32,
        Err(_) => 0,
    }
}

impl<T: rt::Clock + Drop> Clock for SystemClock<T> {
    ghost last = { λ clock. clock.last };

    ghost answers = { λ clock. clock.answers };

    ghost changes = { λ clock. clock.changes };

    fn now(&mut self) -> u32 {
        let second = seconds(&self.system);
        if let Some(before) = self.last
            && before != second
        {
            count(&mut self.changes);
        }
        self.last = Some(second);
        count(&mut self.answers);
        second
    }
}
