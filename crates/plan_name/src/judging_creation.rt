// Whether a name may be made in a directory, and where its entry comes.

ghost use Rattle.std.specs.Prelude.{◌<◌, IfOk};
ghost use Rattle.plan_name.specs.Creations.{CreationWithin, JudgesCreation};
ghost use Rattle.stable.specs.Counts.{HasCause};
ghost use Rattle.stable.specs.Looked.{Looked};
ghost use Rattle.v7_read.specs.Found.{IsFile};
ghost use Rattle.v7_map.specs.Frame.{frame};
ghost use Rattle.v7_map.specs.Image.{inode_sector};
ghost use Rattle.v7_map.specs.Weak.{IsStrong};

use crate::making::Spot;
use crate::names::create_refusal;
use files_model::{Attr, FileId, Name, Sattr, Stat};
use stable::{Failed, Stable};
use v7_entries::{find_empty, find_entry};
use v7_layout::Inode;
use v7_map::attributes_of;
use v7_read::Found;

/// What a CREATE comes to before it is planned: a refusal; the i-number that has the name already; the empty slot where a new entry comes, with the
/// attributes of its directory; or the inode of a directory at whose end it comes.
pub(crate) enum Creation {
    Refused(Stat),
    Stands(u32),
    InPlace(Spot, Attr),
    AtEnd(Inode),
}

/// Judges a CREATE in a directory that stands (RFC 1094 2.2.10), up to what stands under its name: ROFS, NOTDIR, the refusals of its name, PERM for a
/// mode of another type. Nothing is changed.
pub(crate) fn judge_creation<S: Stable>(
    store: &mut S,
    dir: FileId,
    found: &Found,
    name: &Name,
    wanted: &Sattr,
) -> Result<Creation, Failed>
    requires place { inode_sector dir.ino < S.sector_count store.old }
    ensures judged { S.tells → IsStrong (frame (S.image store.old)) → IsFile (S.image store.old) dir found.now → IfOk result (λ judged. JudgesCreation (S.image store.old) dir name.now wanted.now judged) }
    ensures within { IfOk result (λ judged. CreationWithin (S.sector_count store.old) name.now judged) }
    ensures cause { HasCause (S.faults store.old) (S.faults store.new) result }
    ensures looked { Looked S.Stable store.old store.new }
{
    let attr = attributes_of(dir.ino, &found.inode);
    match create_refusal(found.read_only, attr.kind, name, wanted.mode) {
        Some(status) => return Ok(Creation::Refused(status)),
        None => {}
    }
    match find_entry(store, &found.inode, name)? {
        Some(entry) => return Ok(Creation::Stands(entry.ino as u32)),
        None => {}
    }
    let Some(empty) = find_empty(store, &found.inode)? else {
        return Ok(Creation::AtEnd(found.inode));
    };
    // no directory stands in the first two sectors
    if empty.sector < 2 {
        return Ok(Creation::Refused(Stat::Io));
    }
    let spot = Spot {
        directory: dir,
        index: empty.slot,
        sector: empty.sector,
    };
    Ok(Creation::InPlace(spot, attr))
}
