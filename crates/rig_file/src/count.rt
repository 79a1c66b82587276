ghost use Rattle.std.specs.Prelude.{◌≡◌, ◌≤◌, ◌↔◌, ℕ, Ok, IsOk, IfOk};
ghost use Rattle.stable.specs.Counts.{HasCause, one_more};

use rig::Failed;
use std::io;

/// One more, up to 2 to the 64 less 1.
pub fn count(number: &mut u64)
    ensures more { number.new ≡ one_more number.old }
    ensures later { number.old ≤ number.new }
{
    *number = number.saturating_add(1);
}

/// A failure, counted.
pub fn failed(faults: &mut u64) -> Failed
    ensures more { faults.new ≡ one_more faults.old }
    ensures later { faults.old ≤ faults.new }
{
    count(faults);
    Failed
}

/// What a system call answered, as the outside answers it. A failure is counted.
pub fn counted<A: Drop>(done: io::Result<A>, faults: &mut u64) -> Result<A, Failed>
    ensures same { IsOk result ↔ IsOk done }
    ensures answer { IfOk done (λ answer. result ≡ Ok answer) }
    ensures cause { HasCause faults.old faults.new result }
    ensures uncounted { IsOk done → faults.new ≡ faults.old }
{
    match done {
        Ok(answer) => Ok(answer),
        Err(_) => Err(failed(faults)),
    }
}
