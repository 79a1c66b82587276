// The blocks that an inode needs.

ghost use Rattle.std.specs.Prelude.{◌≡◌, ◌≢◌, ◌<◌, ℕ, get_or, length, nat_le, ◌==◌, ◌||◌, ◌&&◌};
ghost use Rattle.v7_damage.specs.Marks.{mark_at};
ghost use Rattle.v7_damage.specs.Stored.{body_at};
ghost use Rattle.v7_damage.specs.Summaries.{sectors_in_size};
ghost use Rattle.v7_inspect.specs.Usage.{needs_block};

use v7_damage::{Marks, body_block};
use v7_map::sectors_of;

// Whether one of index 10 or more is held, now that this one is looked at.
fn is_far(far: bool, index: u32, held: bool) -> bool
    ensures { result ≡ (far || (nat_le 10 index && held)) }
{
    far || (index >= 10 && held)
}

// Marks a block, if so.
fn mark_if(so: bool, block: u32, needed: &mut Marks)
    ensures marks { (b : ℕ) → b < length needed.old → mark_at needed.new b ≡ (mark_at needed.old b || (so && (block == b))) }
    ensures length { length needed.new ≡ length needed.old }
{
    if so {
        needed.mark(block);
    }
}

/// Marks the blocks that an inode of this size needs, whose blocks stand at these places: those of the sectors below its size, and the one of addresses
/// where one of these has its address there.
pub(crate) fn mark_needed(size: u32, places: &[u32; 140], needed: &mut Marks)
    ensures marks { (b : ℕ) → b ≢ 0 → b < length needed.old → mark_at needed.new b ≡ (mark_at needed.old b || needs_block (body_at places.now) (get_or places.now 10 0) (sectors_in_size size) b) }
    ensures length { length needed.new ≡ length needed.old }
{
    let sectors = sectors_of(size).min(138);
    let mut far = false;
    for index in 0..sectors {
        let block = body_block(places, index as usize);
        mark_if(true, block, needed);
        far = is_far(far, index, block != 0);
    }
    mark_if(far, places[10], needed);
}
