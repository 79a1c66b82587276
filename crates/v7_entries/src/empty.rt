// An empty slot.

ghost use Rattle.std.specs.Prelude.{◌≡◌, ◌<◌, IfOk, IfSome};
ghost use Rattle.stable.specs.Counts.{HasCause};
ghost use Rattle.stable.specs.Looked.{Looked};
ghost use Rattle.v7_entries.specs.Bodies.{HasBody};
ghost use Rattle.v7_entries.specs.Found.{FindsEmpty};

use crate::body::{body_block, count_slots, slots_from};
use crate::sector::find_hole;
use stable::{Failed, Stable};
use v7_layout::Inode;
use v7_read::read_places;

/// An empty slot: its number, counted from 0, and the sector where it stands.
#[derive(Clone, Copy, Debug, PartialEq, Eq)]
pub struct EmptySlot {
    pub slot: u32,
    pub sector: u32,
}

/// Finds the first empty slot of a directory, one whose i-number is 0 (filsys(5)). Where there is none a new entry comes at the end, as slot
/// number size / 16. Each sector of the directory is read at most once, and its block of addresses once; a sector that the store hasn't has no
/// slots. Nothing is changed.
pub fn find_empty<S: Stable>(store: &mut S, inode: &Inode) -> Result<Option<EmptySlot>, Failed>
    ensures found { S.tells → HasBody (S.image store.old) inode.now → IfOk result (λ found. FindsEmpty (S.image store.old) inode.now found) }
    ensures within { IfOk result (λ found. IfSome found (λ found. found.sector < S.sector_count store.old)) }
    ensures cause { HasCause (S.faults store.old) (S.faults store.new) result }
    ensures looked { Looked S.Stable store.old store.new }
{
    let places = read_places(store, inode)?;
    let count = count_slots(inode);
    for index in 0..count.div_ceil(32) {
        let block = body_block(&places, index);
        if let Some(hit) = find_hole(store, block, slots_from(count, index))? {
            return Ok(Some(EmptySlot {
                slot: 32 * index + hit.index,
                sector: block,
            }));
        }
    }
    Ok(None)
}
