// The inode of a number.

ghost use Rattle.std.specs.Prelude.{◌≡◌, ◌<◌, true, Some, IfOk, IfSome};
ghost use Rattle.stable.specs.Counts.{HasCause};
ghost use Rattle.stable.specs.Looked.{Looked};
ghost use Rattle.v7_map.specs.Frame.{frame};
ghost use Rattle.v7_map.specs.Image.{is_inode, inode_at, inode_sector};
ghost use Rattle.v7_map.specs.Weak.{IsWeak};

use stable::{Failed, Stable};
use v7_layout::Inode;
use v7_read::{get_sector, inode_in, inode_sector_of};

/// Reads the inode of this number, used or free; there is none past the store's end. Reads at most one sector, and changes nothing.
pub fn read_inode<S: Stable>(store: &mut S, ino: u32) -> Result<Option<Inode>, Failed>
    ensures inode { S.tells → IsWeak (frame (S.image store.old)) → is_inode (S.image store.old) ino ≡ true → IfOk result (λ read. read ≡ Some (inode_at (S.image store.old) ino)) }
    ensures within { IfOk result (λ read. IfSome read (λ _. inode_sector ino < S.sector_count store.old)) }
    ensures cause { HasCause (S.faults store.old) (S.faults store.new) result }
    ensures looked { Looked S.Stable store.old store.new }
{
    let place = inode_sector_of(ino);
    if place >= store.sectors() {
        return Ok(None);
    }
    let sector = get_sector(store, place)?;
    let inode = inode_in(&sector, ino);
    Ok(Some(inode))
}
