ghost use Rattle.std.specs.Prelude.{◌≡◌, ℕ, List, Option, OnOk, OnErr};
ghost use Rattle.stable.specs.Counts.{HasCause};
ghost use Rattle.rig.specs.Links.{gains};

use crate::Failed;

/// Lines of text, one after the other.
pub trait Say {
    /// The bytes of each line that was said, where they are told.
    ghost lines: { Self → Option (List (List ℕ)) };

    /// How often a `say` failed, up to 2 to the 64 less 1.
    ghost say_faults: { Self → ℕ };

    /// What else a `say` may change: of a host nothing that it tells, by the host's laws.
    ghost OnlySays: { Self → Self → Type 0 };

    /// Says one line; the line end is added. After Failed the lines are as they were.
    fn say(&mut self, line: &str) -> Result<(), Failed>
        ensures said { OnOk result (lines self.new ≡ gains (lines self.old) line.now) }
        ensures unsaid { OnErr result (lines self.new ≡ lines self.old) }
        ensures only { OnlySays self.old self.new }
        ensures cause { HasCause (say_faults self.old) (say_faults self.new) result };
}
