// Whether the addresses of an inode are tidy.

ghost use Rattle.std.specs.Prelude.{◌≡◌, get_or, ◌||◌, ◌&&◌, ◌==◌};
ghost use Rattle.v7_damage.specs.Stored.{body_at};
ghost use Rattle.v7_damage.specs.Summaries.{none_past, some_listed, is_tidy};

use crate::bodies::body_block;
use v7_map::sectors_of;

// Both.
fn both(first: bool, second: bool) -> bool
    ensures { result ≡ (first && second) }
{
    first && second
}

// One of them.
fn either(first: bool, second: bool) -> bool
    ensures { result ≡ (first || second) }
{
    first || second
}

// Whether none of the first ten sectors of a body of this size stands past it.
fn none_past_first(size: u32, places: &[u32; 140]) -> bool
    ensures { result ≡ none_past (body_at places.now) size 10 }
{
    let sectors = sectors_of(size) as usize;
    let mut none = true;
    for index in 0..10 {
        let fits = either(index < sectors, body_block(places, index) == 0);
        none = both(none, fits);
    }
    none
}

// Whether no sector of a body of this size stands past it. The sectors whose addresses stand in a block have a loop of their own, which is run
// several at a time.
fn none_past(size: u32, places: &[u32; 140]) -> bool
    ensures { result ≡ none_past (body_at places.now) size 138 }
{
    let sectors = sectors_of(size) as usize;
    let mut none = none_past_first(size, places);
    for index in 0..128 {
        let fits = either(index + 10 < sectors, body_block(places, index + 10) == 0);
        none = both(none, fits);
    }
    none
}

// Whether a sector of a body from the tenth on stands somewhere.
fn some_listed(places: &[u32; 140]) -> bool
    ensures { result ≡ some_listed (body_at places.now) 128 }
{
    let mut some = false;
    for index in 0..128 {
        some = either(some, body_block(places, index + 10) != 0);
    }
    some
}

/// Whether the addresses of an inode of this size, whose blocks stand at these places, are tidy.
pub(crate) fn is_tidy(size: u32, places: &[u32; 140]) -> bool
    ensures { result ≡ is_tidy (body_at places.now) (get_or places.now 10 0) size }
{
    both(
        none_past(size, places),
        either(places[10] == 0, some_listed(places)),
    )
}
