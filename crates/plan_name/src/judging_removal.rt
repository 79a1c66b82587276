// Whether a name may be taken away, and what stands under it.

ghost use Rattle.std.specs.Prelude.{◌≡◌, ◌==◌, ◌<◌, [], ◌∷◌, not, ◌&&◌, IfOk};
ghost use Rattle.files_model.specs.Answers.{first_of};
ghost use Rattle.files_model.specs.Permission.{allows, is_directory};
ghost use Rattle.files_model.specs.declared.permission.Want.TheVariants as want;
ghost use Rattle.files_model.specs.declared.reply.Stat.TheVariants as stat;
ghost use Rattle.stable.specs.Counts.{HasCause};
ghost use Rattle.stable.specs.Looked.{Looked};
ghost use Rattle.v7_read.specs.Found.{IsFile};
ghost use Rattle.v7_map.specs.Frame.{frame};
ghost use Rattle.v7_map.specs.Image.{inode_sector};
ghost use Rattle.v7_map.specs.Weak.{IsStrong};
ghost use Rattle.plan_name.specs.Removals.{JudgesRemoval, JudgedWithin};

use crate::names::place_refusal;
use crate::removing_puts::Taking;
use files_model::{Attr, Cred, FileId, Kind, Name, Stat, Want, may};
use stable::{Failed, Stable};
use v7_entries::{NamedSlot, find_entry, read_inode};
use v7_layout::Inode;
use v7_map::attributes_of;
use v7_read::Found;

/// What a REMOVE comes to before it is planned: a refusal, or the name that is taken away and the inode of what it names.
pub(crate) enum Judged {
    Refused(Stat),
    Takes(Taking, Inode),
}

// The refusal of what is to lose a name, if any: ISDIR for a directory, ACCES where the caller may not write and search the one it stands in.
fn loss_refusal(directory: &Attr, kind: Kind, cred: &Cred) -> Option<Stat>
    ensures { result ≡ first_of ((is_directory kind, stat.Isdir) ∷ (not (allows cred.now directory.now want.Write && allows cred.now directory.now want.Search), stat.Acces) ∷ []) }
{
    if kind == Kind::Directory {
        return Some(Stat::Isdir);
    }
    if !(may(cred, directory, Want::Write) && may(cred, directory, Want::Search)) {
        return Some(Stat::Acces);
    }
    None
}

// The name that is taken away, in this slot of a directory, of a node with this inode.
fn taking_of(directory: u32, entry: &NamedSlot, inode: &Inode) -> Taking
    ensures { result ≡ record { directory = directory; index = entry.now.slot; sector = entry.now.sector; node = entry.now.ino; last = inode.now.nlink == 1 } }
{
    Taking {
        directory,
        index: entry.slot,
        sector: entry.sector,
        node: entry.ino as u32,
        last: inode.nlink == 1,
    }
}

/// Judges a REMOVE in a directory that stands (RFC 1094 2.2.11): ROFS, NOTDIR, the refusals of its name, NOENT where nothing has it, ISDIR for a
/// directory, ACCES where the caller may not write and search. Nothing is changed.
pub(crate) fn judge_removal<S: Stable>(
    store: &mut S,
    dir: FileId,
    found: &Found,
    name: &Name,
    cred: &Cred,
) -> Result<Judged, Failed>
    requires place { inode_sector dir.ino < S.sector_count store.old }
    ensures judged { S.tells → IsStrong (frame (S.image store.old)) → IsFile (S.image store.old) dir found.now → IfOk result (λ judged. JudgesRemoval (S.image store.old) dir name.now cred.now judged) }
    ensures within { IfOk result (λ judged. JudgedWithin (S.sector_count store.old) judged) }
    ensures cause { HasCause (S.faults store.old) (S.faults store.new) result }
    ensures looked { Looked S.Stable store.old store.new }
{
    let attr = attributes_of(dir.ino, &found.inode);
    match place_refusal(found.read_only, attr.kind, name) {
        Some(status) => return Ok(Judged::Refused(status)),
        None => {}
    }
    let Some(entry) = find_entry(store, &found.inode, name)? else {
        return Ok(Judged::Refused(Stat::Noent));
    };
    // no directory stands in the first two sectors
    if entry.sector < 2 {
        return Ok(Judged::Refused(Stat::Noent));
    }
    let Some(inode) = read_inode(store, entry.ino as u32)? else {
        return Ok(Judged::Refused(Stat::Noent));
    };
    let node = attributes_of(entry.ino as u32, &inode);
    match loss_refusal(&attr, node.kind, cred) {
        Some(status) => return Ok(Judged::Refused(status)),
        None => {}
    }
    Ok(Judged::Takes(taking_of(dir.ino, &entry, &inode), inode))
}
