// The slot of a name.

ghost use Rattle.std.specs.Prelude.{◌≡◌, ◌<◌, IfOk, IfSome};
ghost use Rattle.stable.specs.Counts.{HasCause};
ghost use Rattle.stable.specs.Looked.{Looked};
ghost use Rattle.v7_entries.specs.Bodies.{HasBody};
ghost use Rattle.v7_entries.specs.Found.{FindsName};

use crate::body::{body_block, count_slots, slots_from};
use crate::sector::find_name;
use files_model::Name;
use stable::{Failed, Stable};
use v7_layout::Inode;
use v7_read::read_places;

/// A slot that has a name: its number, counted from 0, its i-number, and the sector where it stands.
#[derive(Clone, Copy, Debug, PartialEq, Eq)]
pub struct NamedSlot {
    pub slot: u32,
    pub ino: u16,
    pub sector: u32,
}

/// Finds the first slot of a directory that isn't empty and has this name (filsys(5); RFC 1094 2.2.5). Each sector of the directory is read at
/// most once, and its block of addresses once; a sector that the store hasn't has no slots. Nothing is changed.
pub fn find_entry<S: Stable>(
    store: &mut S,
    inode: &Inode,
    name: &Name,
) -> Result<Option<NamedSlot>, Failed>
    ensures found { S.tells → HasBody (S.image store.old) inode.now → IfOk result (λ found. FindsName (S.image store.old) inode.now name.now found) }
    ensures within { IfOk result (λ found. IfSome found (λ found. found.sector < S.sector_count store.old)) }
    ensures cause { HasCause (S.faults store.old) (S.faults store.new) result }
    ensures looked { Looked S.Stable store.old store.new }
{
    let places = read_places(store, inode)?;
    let count = count_slots(inode);
    for index in 0..count.div_ceil(32) {
        let block = body_block(&places, index);
        if let Some(hit) = find_name(store, block, slots_from(count, index), name)? {
            return Ok(Some(NamedSlot {
                slot: 32 * index + hit.index,
                ino: hit.ino,
                sector: block,
            }));
        }
    }
    Ok(None)
}
