ghost use Rattle.std.specs.Prelude.{◌≡◌, ⊤, None};

use crate::count::counted;
use rig::{Failed, Say};

/// Lines on standard output. They are not told.
#[derive(Drop)]
pub struct StdSay<T> {
    system: T,
    faults: u64,
}

impl<T> StdSay<T> {
    /// Standard output of that system. No fault is counted yet.
    pub fn new(system: T) -> StdSay<T>
        ensures system { result.system ≡ system }
        ensures faults { result.faults ≡ 0 }
    {
        StdSay { system, faults: 0 }
    }

    /// The system whose output it is.
    pub(crate) fn system(&self) -> &T
        ensures { result.now ≡ self.now.system }
    {
        &self.system
    }
}

impl<T: Print + Drop> Say for StdSay<T> {
    ghost lines = { λ _. None };

    ghost say_faults = { λ say. say.faults };

    ghost OnlySays = { λ _ _. ⊤ };

    fn say(&mut self, line: &str) -> Result<(), Failed> {
        let done = self.system.println(line);
        counted(done, &mut self.faults)
    }
}
