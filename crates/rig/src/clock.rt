ghost use Rattle.std.specs.Prelude.{◌≡◌, ℕ, Option, Some};
ghost use Rattle.stable.specs.Counts.{one_more};
ghost use Rattle.rig.specs.Clocks.{changes_after};

/// Seconds. What it answers is a free input, and may go back.
pub trait Clock {
    /// The last answer, if there was one.
    ghost last: { Self → Option ℕ };

    /// How many answers there were, up to 2 to the 64 less 1.
    ghost answers: { Self → ℕ };

    /// How many answers differed from the one before, counted in the same way.
    ghost changes: { Self → ℕ };

    /// The second.
    fn now(&mut self) -> u32
        ensures last { last self.new ≡ Some result }
        ensures answers { answers self.new ≡ one_more (answers self.old) }
        ensures changes { changes self.new ≡ changes_after (last self.old) result (changes self.old) };
}
