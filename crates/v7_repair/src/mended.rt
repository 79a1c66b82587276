// What a repair answers.

use v7_inspect::Seen;
use v7_sets::Sets;

/// What a repair has done, and what is seen of the volume after it.
#[derive(Clone, Copy, Debug, PartialEq, Eq)]
pub struct Repaired {
    /// How many sectors it changed, each by one put.
    pub changed: u32,
    /// What is in the volume now. There is nothing to mend; `clean` says what it said before.
    pub seen: Seen,
}

/// A volume without damage that has nothing to mend any more.
#[derive(Drop)]
pub struct Mended {
    pub repaired: Repaired,
    /// What is free now.
    pub sets: Sets,
}
