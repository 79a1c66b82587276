// What is kept of an inode after its tests.

ghost use Rattle.std.specs.Prelude.{◌≡◌, ◌<◌, ◌≤◌, ◌+◌, nat_le, ◌&&◌, ◌||◌, if◌then◌else◌};
ghost use Rattle.v7_damage.specs.Summaries.{is_at, needed_by, no_summary, sectors_in_size, summary_by};

use crate::bodies::body_block;
use crate::tidy::is_tidy;
use v7_layout::Inode;
use v7_map::sectors_of;

/// What the tests of a used inode keep of it, four bytes, so that it need not be read again to judge it.
#[derive(Clone, Copy, Debug, PartialEq, Eq)]
pub struct Summary {
    /// How many slots name it, as it is stored (filsys(5)).
    pub nlink: u16,
    /// How many blocks it needs: those of the sectors below its size, and the one of addresses where one of these has its address there.
    pub needs: u8,
    /// No address stands past its size, and a block of addresses holds one.
    pub tidy: bool,
}

/// The summary of no inode.
pub(crate) fn no_summary() -> Summary
    ensures { result ≡ no_summary }
{
    Summary {
        nlink: 0,
        needs: 0,
        tidy: false,
    }
}

// One more, if so.
fn one_more(count: u8, so: bool) -> u8
    requires { count < 200 }
    ensures { result ≡ count + (if so then 1 else 0) }
{
    if so { count + 1 } else { count }
}

// Whether one of index 10 or more is held, now that this one is looked at.
fn is_far(far: bool, index: u32, held: bool) -> bool
    ensures { result ≡ (far || (nat_le 10 index && held)) }
{
    far || (index >= 10 && held)
}

// How many blocks an inode of this size needs, whose blocks stand at these places.
fn needs_of(size: u32, places: &[u32; 140]) -> u8
    ensures needs { result ≡ needed_by (is_at places.now) (sectors_in_size size) }
    ensures few { result ≤ 139 }
{
    let sectors = sectors_of(size).min(138);
    let mut count = 0;
    let mut far = false;
    for index in 0..sectors {
        let held = body_block(places, index as usize) != 0;
        count = one_more(count, held);
        far = is_far(far, index, held);
    }
    one_more(count, far)
}

/// The summary of an inode whose blocks stand at these places.
pub(crate) fn summary_of(inode: &Inode, places: &[u32; 140]) -> Summary
    ensures { result ≡ summary_by inode.now places.now }
{
    Summary {
        nlink: inode.nlink,
        needs: needs_of(inode.size, places),
        tidy: is_tidy(inode.size, places),
    }
}
