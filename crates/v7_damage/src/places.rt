// The tests of the places of an inode.

ghost use Rattle.std.specs.Prelude.{◌≡◌, ◌≢◌, ◌<◌, ◌≤◌, ℕ, ◌+◌, length, [], ◌∷◌, true, None};
ghost use Rattle.std.specs.Option.{option_map};
ghost use Rattle.v7_map.specs.Frame.{Frame, head_of};
ghost use Rattle.v7_map.specs.Damage.{Address, Shared, place_at, has_address, is_needed as needed};
ghost use Rattle.v7_damage.specs.Marks.{AreSeen};
ghost use Rattle.v7_damage.specs.Tests.{HasInode, first_failing, kind_of_test, place_tests, earlier_blocks};

use crate::damage::Damage;
use crate::marks::Marks;
use v7_layout::Inode;
use v7_map::sectors_of;

/// How many places of blocks an inode has: ten direct ones, the single indirect one, those inside
/// that block, and the double indirect one.
const PLACES: usize = 140;

const SINGLE: usize = 10;

const DOUBLE: usize = 139;

/// The type of a directory in the four highest bits of a mode.
const DIRECTORY: u16 = 4;

// Whether the size of a directory needs a block at this place.
fn is_needed(inode: &Inode, place: usize) -> bool
    requires { place < 139 }
    ensures { (f : Frame) (i : ℕ) → f.head i ≡ head_of inode.now → result ≡ needed (f.head i) (place_at place) }
{
    let sectors = sectors_of(inode.size) as usize;
    let index = if place < SINGLE {
        place
    } else if place == SINGLE {
        SINGLE
    } else {
        place - 1
    };
    inode.mode / 4096 == DIRECTORY && index < sectors
}

// Whether an inode may have this block at this place.
fn has_address(inode: &Inode, place: usize, block: u32, isize: u32, fsize: u32) -> bool
    requires { place < 140 }
    ensures tested { (f : Frame) (i : ℕ) → f.isize ≡ isize → f.fsize ≡ fsize → f.head i ≡ head_of inode.now → f.address i (place_at place) ≡ block → result ≡ has_address f i (place_at place) }
    ensures within { result ≡ true → block ≢ 0 → block < fsize }
{
    if place == DOUBLE {
        return block == 0;
    }
    if block == 0 {
        return !is_needed(inode, place);
    }
    isize <= block && block < fsize
}

// The first test that fails of those of one place. The block there is seen from then on.
fn test_place(
    inode: &Inode,
    place: usize,
    block: u32,
    isize: u32,
    fsize: u32,
    seen: &mut Marks,
) -> Option<Damage>
    requires place { place < 140 }
    requires fits { fsize ≤ length seen.old }
    ensures tested { (f : Frame) (i : ℕ) → f.isize ≡ isize → f.fsize ≡ fsize → f.head i ≡ head_of inode.now → f.address i (place_at place) ≡ block
        → AreSeen seen.old (earlier_blocks f i place) → result ≡ option_map kind_of_test (first_failing f (Address i place ∷ Shared i place ∷ [])) }
    ensures seen { (f : Frame) (i : ℕ) → f.address i (place_at place) ≡ block
        → AreSeen seen.old (earlier_blocks f i place) → result ≡ None → AreSeen seen.new (earlier_blocks f i (place + 1)) }
    ensures length { length seen.new ≡ length seen.old }
{
    if !has_address(inode, place, block, isize, fsize) {
        return Some(Damage::Address);
    }
    if block == 0 {
        return None;
    }
    if seen.has(block) {
        return Some(Damage::Shared);
    }
    seen.mark(block);
    None
}

/// The first test that fails of those of an inode's places. Its blocks are seen from then on.
pub(crate) fn test_places(
    inode: &Inode,
    places: &[u32; 140],
    isize: u32,
    fsize: u32,
    seen: &mut Marks,
) -> Option<Damage>
    requires fits { fsize ≤ length seen.old }
    ensures tested { (f : Frame) (i : ℕ) → HasInode f i isize fsize inode.now places.now
        → AreSeen seen.old (earlier_blocks f i 0) → result ≡ option_map kind_of_test (first_failing f (place_tests i 0 140)) }
    ensures seen { (f : Frame) (i : ℕ) → HasInode f i isize fsize inode.now places.now
        → AreSeen seen.old (earlier_blocks f i 0) → result ≡ None → AreSeen seen.new (earlier_blocks f i 140) }
    ensures length { length seen.new ≡ length seen.old }
{
    for place in 0..PLACES {
        let failing = test_place(inode, place, places[place], isize, fsize, seen);
        if failing.is_some() {
            return failing;
        }
    }
    None
}
