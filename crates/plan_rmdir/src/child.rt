// What a name in a directory leads to.

ghost use Rattle.std.specs.Prelude.{◌≡◌, ◌/◌, true, IfOk, IfSome};
ghost use Rattle.files_model.specs.Permission.{is_directory};
ghost use Rattle.stable.specs.Counts.{HasCause};
ghost use Rattle.stable.specs.Looked.{Looked};
ghost use Rattle.v7_map.specs.Frame.{frame};
ghost use Rattle.v7_map.specs.View.{kind_of};
ghost use Rattle.v7_map.specs.Weak.{IsStrong};
ghost use Rattle.v7_read.specs.Found.{IsFile};
ghost use Rattle.plan_rmdir.specs.Children.{FindsChild, ChildWithin};

use files_model::{FileId, Name};
use stable::{Failed, Stable};
use v7_entries::{NamedSlot, find_entry, read_inode};
use v7_layout::Inode;
use v7_read::Found;

/// The slot that has a name, and the inode of its number.
#[derive(Clone, Copy)]
pub(crate) struct Child {
    pub entry: NamedSlot,
    pub inode: Inode,
}

/// Finds what a name in a directory leads to: the name's first slot, and the inode of its number. Nothing is changed.
pub(crate) fn find_child<S: Stable>(
    store: &mut S,
    dir: FileId,
    found: &Found,
    name: &Name,
) -> Result<Option<Child>, Failed>
    ensures child { S.tells → IsStrong (frame (S.image store.old)) → IsFile (S.image store.old) dir found.now → is_directory (kind_of (found.now.inode.mode / 4096)) ≡ true → IfOk result (λ child. FindsChild (S.image store.old) dir.ino name.now child) }
    ensures within { IfOk result (λ child. IfSome child (λ child. ChildWithin (S.sector_count store.old) child)) }
    ensures cause { HasCause (S.faults store.old) (S.faults store.new) result }
    ensures looked { Looked S.Stable store.old store.new }
{
    let Some(entry) = find_entry(store, &found.inode, name)? else {
        return Ok(None);
    };
    // no directory stands in the first two sectors
    if entry.sector < 2 {
        return Ok(None);
    }
    let Some(inode) = read_inode(store, entry.ino as u32)? else {
        return Ok(None);
    };
    Ok(Some(Child { entry, inode }))
}
