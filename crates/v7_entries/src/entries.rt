// Whether a directory has entries.

ghost use Rattle.std.specs.Prelude.{◌≡◌, IfOk};
ghost use Rattle.stable.specs.Counts.{HasCause};
ghost use Rattle.stable.specs.Looked.{Looked};
ghost use Rattle.v7_entries.specs.Bodies.{HasBody};
ghost use Rattle.v7_entries.specs.Found.{any_entry};

use crate::body::{body_block, count_slots, slots_from};
use crate::sector::has_used;
use stable::{Failed, Stable};
use v7_layout::Inode;
use v7_read::read_places;

/// How many slots are those of `.` and `..`.
const DOTS: u32 = 2;

/// Whether a directory has an entry past its first two slots, which are those of `.` and `..` (RFC 1094 2.2.16). Each sector of the directory is
/// read at most once, and its block of addresses once; a sector that the store hasn't has no slots. Nothing is changed.
pub fn has_entries<S: Stable>(store: &mut S, inode: &Inode) -> Result<bool, Failed>
    ensures found { S.tells → HasBody (S.image store.old) inode.now → IfOk result (λ has. has ≡ any_entry (S.image store.old) inode.now) }
    ensures cause { HasCause (S.faults store.old) (S.faults store.new) result }
    ensures looked { Looked S.Stable store.old store.new }
{
    let places = read_places(store, inode)?;
    let count = count_slots(inode);
    for index in 0..count.div_ceil(32) {
        let block = body_block(&places, index);
        let from = DOTS.saturating_sub(32 * index) as usize;
        if has_used(store, block, from, slots_from(count, index))? {
            return Ok(true);
        }
    }
    Ok(false)
}
