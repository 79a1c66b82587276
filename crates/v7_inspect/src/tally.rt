// How many files of each kind there are.

ghost use Rattle.std.specs.Prelude.{◌≡◌, ◌<◌, ◌≤◌, ◌-◌, length, count_by};
ghost use Rattle.std.specs.List.{range_with_len};
ghost use Rattle.v7_inspect.specs.SeenNumbers.{is_of, is_counted};

use files_model::Kind;
use v7_damage::Undamaged;

/// The types of directories and links in the four highest bits of a mode.
const DIRECTORY: u8 = 4;

const LINK: u8 = 10;

// Whether a type is that of this kind of file.
fn is_of(kind: Kind, number: u8) -> bool
    ensures { result ≡ is_of kind number }
{
    match kind {
        Kind::Directory => number == DIRECTORY,
        Kind::Link => number == LINK,
        Kind::Regular => number != DIRECTORY && number != LINK,
    }
}

// Whether an inode is walked or counted, and of this kind.
fn is_counted(kind: Kind, known: &Undamaged, index: usize) -> bool
    requires types { index < length known.now.types.items }
    requires counts { index < length known.now.counts.items }
    requires few { index < 65536 }
    ensures { result ≡ is_counted kind known.now index }
{
    (known.walked.has(index as u32) || known.counts[index] > 0) && is_of(kind, known.types[index])
}

/// How many inodes are walked or counted, and of this kind.
pub(crate) fn count_kind(kind: Kind, known: &Undamaged) -> u32
    requires some { 1 ≤ length known.now.types.items }
    requires few { length known.now.types.items ≤ 65536 }
    requires counts { length known.now.counts.items ≡ length known.now.types.items }
    ensures { result ≡ count_by (is_counted kind known.now) (range_with_len 1 (length known.now.types.items - 1)) }
{
    let mut count = 0;
    for index in 1..known.types.len() {
        if is_counted(kind, known, index) {
            count += 1;
        }
    }
    count
}
