// Where the slots of a directory stand.

ghost use Rattle.std.specs.Prelude.{◌≡◌, ◌<◌, ◌≤◌, ◌-◌, ◌*◌, ◌/◌, min};
ghost use Rattle.v7_entries.specs.Bodies.{body_at};

use v7_layout::Inode;
use v7_map::SIZE_LIMIT;

/// How many slots a sector has.
const IN_SECTOR: u32 = 32;

/// How many slots a directory has, none past the greatest size.
pub(crate) fn count_slots(inode: &Inode) -> u32
    ensures { result ≡ min inode.now.size 70656 / 16 }
{
    inode.size.min(SIZE_LIMIT) / 16
}

/// How many of so many slots stand in sector `index` or past it, at most those of one sector.
pub(crate) fn slots_from(count: u32, index: u32) -> usize
    requires { 32 * index ≤ count }
    ensures { result ≡ min (count - 32 * index) 32 }
{
    (count - IN_SECTOR * index).min(IN_SECTOR) as usize
}

/// The block of sector `index` of a body, by the 140 blocks of its inode.
pub(crate) fn body_block(places: &[u32; 140], index: u32) -> u32
    requires { index < 138 }
    ensures { result ≡ body_at places.now index }
{
    let place = if index < 10 { index } else { index + 1 };
    places[place as usize]
}
