ghost use Rattle.std.specs.Prelude.{◌≡◌, Some, []};

use crate::line::Line;
use rig::{Failed, Say};
use std::alloc::Global;

/// Lines in memory. A `say` fails only where there is no memory to keep its line.
#[derive(Drop)]
pub struct MemSay {
    alloc: Global,
    said: Vec<Line>,
    faults: u64,
}

impl MemSay {
    /// No line yet.
    pub fn new(alloc: Global) -> MemSay
        ensures lines { ⟦<MemSay as Say>⟧.lines result ≡ Some [] }
        ensures faults { ⟦<MemSay as Say>⟧.say_faults result ≡ 0 }
    {
        MemSay {
            alloc,
            said: Vec::new(alloc),
            faults: 0,
        }
    }

    /// The lines that were said, in order.
    pub fn lines(&self) -> &[Line]
        ensures { ⟦<MemSay as Say>⟧.lines self.now ≡ Some result.now }
    {
        self.said.as_slice()
    }
}

impl Say for MemSay {
    ghost lines = { λ s. Some s.said.items };

    ghost say_faults = { λ s. s.faults };

    ghost OnlySays = { λ _ _. Unit {0} };

    fn say(&mut self, line: &str) -> Result<(), Failed> {
        let line = match Line::copy(self.alloc, line) {
            Ok(line) => line,
            Err(_) => {
                self.faults = self.faults.saturating_add(1);
                return Err(Failed);
            }
        };
        match self.said.push(line) {
            Ok(()) => Ok(()),
            Err(_) => {
                self.faults = self.faults.saturating_add(1);
                Err(Failed)
            }
        }
    }
}
