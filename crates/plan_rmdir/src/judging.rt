// Whether a directory may be taken away.

ghost use Rattle.std.specs.Prelude.{◌≡◌, ◌<◌, ◌/◌, true, IfOk};
ghost use Rattle.files_model.specs.Answers.{first_of};
ghost use Rattle.files_model.specs.Permission.{is_directory};
ghost use Rattle.plan_rmdir.specs.Leaving.{leaving_tests, JudgesRmdir, JudgedWithin};
ghost use Rattle.stable.specs.Counts.{HasCause};
ghost use Rattle.stable.specs.Looked.{Looked};
ghost use Rattle.v7_entries.specs.Bodies.{HasBody};
ghost use Rattle.v7_map.specs.Frame.{frame};
ghost use Rattle.v7_map.specs.Image.{inode_sector};
ghost use Rattle.v7_map.specs.View.{kind_of};
ghost use Rattle.v7_map.specs.Weak.{IsStrong};
ghost use Rattle.v7_read.specs.Found.{IsFile};

use crate::child::{Child, find_child};
use crate::puts::Leaving;
use files_model::{Attr, Cred, FileId, Kind, Name, Stat, Want, may};
use plan_name::place_refusal;
use stable::{Failed, Stable};
use v7_entries::has_entries;
use v7_layout::Inode;
use v7_map::{attributes_of, kind_of};
use v7_read::Found;

/// What an RMDIR comes to before it is planned: a refusal, or the directory that is taken away and its inode.
pub(crate) enum Judged {
    Refused(Stat),
    Leaves(Leaving, Inode),
}

// The refusal of what is to be taken away, if any: NOTDIR of what is no directory, NOTEMPTY of one with an entry, ACCES where the caller may not write
// and search the parent.
fn leaving_refusal<S: Stable>(
    store: &mut S,
    parent: &Attr,
    inode: &Inode,
    cred: &Cred,
) -> Result<Option<Stat>, Failed>
    ensures refusal { S.tells → (is_directory (kind_of (inode.now.mode / 4096)) ≡ true → HasBody (S.image store.old) inode.now) → IfOk result (λ refusal. refusal ≡ first_of (leaving_tests (S.image store.old) parent.now inode.now cred.now)) }
    ensures cause { HasCause (S.faults store.old) (S.faults store.new) result }
    ensures looked { Looked S.Stable store.old store.new }
{
    if kind_of(inode.mode) != Kind::Directory {
        return Ok(Some(Stat::Notdir));
    }
    if has_entries(store, inode)? {
        return Ok(Some(Stat::Notempty));
    }
    if !(may(cred, parent, Want::Write) && may(cred, parent, Want::Search)) {
        return Ok(Some(Stat::Acces));
    }
    Ok(None)
}

// The directory that is taken away from this parent.
fn leaving_of(parent: u32, child: &Child) -> Leaving
    ensures { result ≡ record { parent = parent; index = child.now.entry.slot; sector = child.now.entry.sector; directory = child.now.entry.ino } }
{
    Leaving {
        parent,
        index: child.entry.slot,
        sector: child.entry.sector,
        directory: child.entry.ino as u32,
    }
}

/// Judges an RMDIR in a directory that stands (RFC 1094 2.2.16): ROFS, NOTDIR, the refusals of its name, NOENT where nothing has it, NOTDIR of what
/// is no directory, NOTEMPTY, ACCES where the caller may not write and search. Nothing is changed.
pub(crate) fn judge_rmdir<S: Stable>(
    store: &mut S,
    dir: FileId,
    found: &Found,
    name: &Name,
    cred: &Cred,
) -> Result<Judged, Failed>
    requires place { inode_sector dir.ino < S.sector_count store.old }
    ensures judged { S.tells → IsStrong (frame (S.image store.old)) → IsFile (S.image store.old) dir found.now → IfOk result (λ judged. JudgesRmdir (S.image store.old) dir name.now cred.now judged) }
    ensures within { IfOk result (λ judged. JudgedWithin (S.sector_count store.old) judged) }
    ensures cause { HasCause (S.faults store.old) (S.faults store.new) result }
    ensures looked { Looked S.Stable store.old store.new }
{
    let parent = attributes_of(dir.ino, &found.inode);
    match place_refusal(found.read_only, parent.kind, name) {
        Some(status) => return Ok(Judged::Refused(status)),
        None => {}
    }
    let Some(child) = find_child(store, dir, found, name)? else {
        return Ok(Judged::Refused(Stat::Noent));
    };
    let refusal = leaving_refusal(store, &parent, &child.inode, cred)?;
    match refusal {
        Some(status) => return Ok(Judged::Refused(status)),
        None => {}
    }
    Ok(Judged::Leaves(leaving_of(dir.ino, &child), child.inode))
}
