ghost use Rattle.std.specs.Prelude.{◌≡◌, None, Some};
ghost use Rattle.stable.specs.Counts.{one_more};
ghost use Rattle.rig.specs.Clocks.{changes_after};
ghost use Rattle.rig_mem.specs.Clocks.{mem_seconds, second_at};

use rig::Clock;

/// A clock that gives its seconds in order, and then the last one again; with no seconds it gives 0.
#[derive(Drop)]
pub struct MemClock {
    seconds: Vec<u32>,
    last: Option<u32>,
    answers: u64,
    changes: u64,
}

impl MemClock {
    /// A clock that has answered nothing yet.
    pub fn new(seconds: Vec<u32>) -> MemClock
        ensures seconds { mem_seconds result ≡ seconds.items }
        ensures last { ⟦<MemClock as Clock>⟧.last result ≡ None }
        ensures answers { ⟦<MemClock as Clock>⟧.answers result ≡ 0 }
        ensures changes { ⟦<MemClock as Clock>⟧.changes result ≡ 0 }
    {
        MemClock {
            seconds,
            last: None,
            answers: 0,
            changes: 0,
        }
    }
}

// The answer after so many.
fn second_after(seconds: &[u32], answers: u64) -> u32
    ensures { result ≡ second_at seconds.now answers }
{
    if answers < seconds.len() as u64 {
        return seconds[answers as usize];
    }
    match seconds.last() {
        Some(last) => *last,
        None => 0,
    }
}

// The count of changes after an answer.
fn changes_with(last: Option<u32>, second: u32, changes: u64) -> u64
    ensures { result ≡ changes_after last second changes }
{
    match last {
        Some(before) if before != second => changes.saturating_add(1),
        _ => changes,
    }
}

impl Clock for MemClock {
    ghost last = { λ c. c.last };

    ghost answers = { λ c. c.answers };

    ghost changes = { λ c. c.changes };

    fn now(&mut self) -> u32
        ensures answer { result ≡ second_at (mem_seconds self.old) self.old.answers }
        ensures seconds { mem_seconds self.new ≡ mem_seconds self.old }
        ensures last { self.new.last ≡ Some result }
        ensures answers { self.new.answers ≡ one_more self.old.answers }
        ensures changes { self.new.changes ≡ changes_after self.old.last result self.old.changes }
    {
        let second = second_after(&self.seconds, self.answers);
        self.changes = changes_with(self.last, second, self.changes);
        self.last = Some(second);
        self.answers = self.answers.saturating_add(1);
        second
    }
}
