// The file that a handle means.

ghost use Rattle.std.specs.Prelude.{◌≡◌, ◌<◌, ◌≤◌, IfOk, IfSome};
ghost use Rattle.files_model.specs.Space.{size_limit};
ghost use Rattle.stable.specs.Counts.{HasCause};
ghost use Rattle.stable.specs.Looked.{Looked};
ghost use Rattle.v7_read.specs.Found.{Finds};
ghost use Rattle.v7_map.specs.Frame.{frame};
ghost use Rattle.v7_map.specs.Image.{inode_sector};
ghost use Rattle.v7_map.specs.Weak.{IsStrong};

use crate::found::Found;
use crate::get::get_sector;
use crate::places::{inode_in, inode_sector_of};
use files_model::FileId;
use stable::{Failed, Stable};
use v7_layout::{Record, Super};
use v7_map::{has_inode, is_current, with_limits};

/// Looks up the file of a handle; none is found where the handle is stale. A damaged volume is read too: a size above the limit is taken as the
/// limit, and an inode past the store's end is none.
pub fn find<S: Stable>(store: &mut S, file: FileId) -> Result<Option<Found>, Failed>
    ensures found { S.tells → IsStrong (frame (S.image store.old)) → IfOk result (λ found. Finds (S.image store.old) file found) }
    ensures within { IfOk result (λ found. IfSome found (λ found. found.inode.size ≤ size_limit)) }
    ensures stands { IfOk result (λ found. IfSome found (λ found. inode_sector file.ino < S.sector_count store.old)) }
    ensures cause { HasCause (S.faults store.old) (S.faults store.new) result }
    ensures looked { Looked S.Stable store.old store.new }
{
    if store.sectors() < 2 {
        return Ok(None);
    }
    let super_block = Super::read(&get_sector(store, 1)?);
    let place = inode_sector_of(file.ino);
    if !has_inode(&super_block, file.ino) {
        return Ok(None);
    }
    if place >= store.sectors() {
        return Ok(None);
    }
    let sector = get_sector(store, place)?;
    let stored = inode_in(&sector, file.ino);
    let inode = with_limits(&stored);
    if !is_current(&inode, file.generation) {
        return Ok(None);
    }
    Ok(Some(Found {
        read_only: super_block.s_ronly != 0,
        inode,
        sector,
    }))
}
