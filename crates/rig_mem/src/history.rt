// What a rig in memory keeps of its changes, so that it can tell its images at each moment.
ghost use Rattle.std.specs.Prelude.{◌≡◌, ◌<◌, ◌+◌, ◌^◌, ◌++◌, [], ◌∷◌, length, OnOk, OnErr};

use crate::change::Change;
use rig::Failed;
use std::alloc::Global;

// The changes since a moment, each with what was there before. Each change is one moment later.
#[derive(Drop)]
pub struct History {
    start: u64,
    changes: Vec<Change>,
    ghost fits: { start + length changes.items < 2 ^ 64 },
}

impl History {
    pub fn new(alloc: Global) -> Self
        ensures start { result.start ≡ 0 }
        ensures changes { result.changes.items ≡ [] }
    {
        History {
            start: 0,
            changes: Vec::new(alloc),
        }
    }

    // Keeps one more change. It fails where there is no memory for it, or no later moment.
    pub fn keep(&mut self, change: Change) -> Result<(), Failed>
        ensures start { self.new.start ≡ self.old.start }
        ensures kept { OnOk result (self.new.changes.items ≡ self.old.changes.items ++ change ∷ []) }
        ensures lost { OnErr result (self.new.changes.items ≡ self.old.changes.items) }
    {
        if self.start + self.changes.len() as u64 == u64::MAX {
            return Err(Failed);
        }
        match self.changes.push(change) {
            Ok(()) => Ok(()),
            Err(_) => Err(Failed),
        }
    }

    // Lets the changes go; the moment stays.
    pub fn restart(&mut self)
        ensures start { self.new.start ≡ self.old.start + length self.old.changes.items }
        ensures changes { self.new.changes.items ≡ [] }
    {
        let start = self.start + self.changes.len() as u64;
        self.changes.clear();
        self.start = start;
    }
}
