// What the inodes of a volume without damage add up to, by what is known of them.

ghost use Rattle.std.specs.Prelude.{◌≡◌, ◌<◌, ◌≤◌, ◌||◌, ◌&&◌, length, get_or, nat_lt};
ghost use Rattle.stable.specs.Store.{Image};
ghost use Rattle.v7_map.specs.Frame.{frame};
ghost use Rattle.v7_damage.specs.Marks.{mark_at};
ghost use Rattle.v7_damage.specs.Undamaged.{IsUndamaged};
ghost use Rattle.v7_inspect.specs.Judged.{HasRows, IsSummed};
ghost use Rattle.v7_inspect.specs.Tidy.{is_strong_at};
ghost use Rattle.v7_inspect.specs.Usage.{named_needs};

use v7_damage::Undamaged;

// How many blocks are needed, and whether there is nothing to mend.
#[derive(Clone, Copy)]
pub(crate) struct Sum {
    pub(crate) used: u32,
    pub(crate) strong: bool,
}

/// Whether an inode is walked or named by a slot.
pub fn is_named(known: &Undamaged, ino: u32) -> bool
    requires { ino < length known.now.counts.items }
    ensures { result ≡ (mark_at known.now.walked ino || nat_lt 0 (get_or known.now.counts.items ino 0)) }
{
    known.walked.has(ino) || known.counts[ino as usize] > 0
}

// Both.
fn both(first: bool, second: bool) -> bool
    ensures { result ≡ (first && second) }
{
    first && second
}

// Judges one inode.
fn judge_inode(known: &Undamaged, ino: usize) -> Sum
    requires rows { HasRows known.now }
    requires some { 1 ≤ ino }
    requires within { ino < length known.now.types.items }
    ensures used { (image : Image) → IsUndamaged image known.now → result.used ≡ named_needs image ino }
    ensures strong { (image : Image) → IsUndamaged image known.now → result.strong ≡ is_strong_at (frame image) ino }
    ensures few { result.used < 256 }
{
    if !is_named(known, ino as u32) {
        let kind = known.types[ino];
        return Sum {
            used: 0,
            strong: kind == 0,
        };
    }
    let summary = known.summaries[ino];
    let count = known.counts[ino];
    Sum {
        used: summary.needs as u32,
        strong: both(summary.nlink == count, summary.tidy),
    }
}

/// Judges all inodes, without reading any again.
pub(crate) fn sum_up(known: &Undamaged) -> Sum
    requires { HasRows known.now }
    ensures { (image : Image) → IsUndamaged image known.now → IsSummed image result }
{
    let mut used = 0;
    let mut strong = true;
    for ino in 1..known.types.len() {
        let judged = judge_inode(known, ino);
        used += judged.used;
        strong = both(strong, judged.strong);
    }
    Sum { used, strong }
}
