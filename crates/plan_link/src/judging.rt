// The files of a LINK, and where its name comes.

ghost use Rattle.std.specs.Prelude.{◌<◌, IfOk, IfSome};
ghost use Rattle.plan_link.specs.Judging.{FindsEnds, JudgesLink, JudgedWithin};
ghost use Rattle.stable.specs.Counts.{HasCause};
ghost use Rattle.stable.specs.Looked.{Looked};
ghost use Rattle.v7_map.specs.Frame.{frame};
ghost use Rattle.v7_map.specs.Image.{inode_sector};
ghost use Rattle.v7_map.specs.Weak.{IsStrong};
ghost use Rattle.v7_read.specs.Found.{IsFile};

use crate::refusals::link_refusal;
use files_model::{FileId, Name, Stat};
use name_places::{NamePlace, find_place};
use plan_name::Spot;
use stable::{Failed, Stable};
use v7_map::attributes_of;
use v7_read::{Found, find};

/// The two files of a LINK: the node that gets a name, and the directory where its entry comes.
#[derive(Clone, Copy)]
pub(crate) struct Ends {
    pub node: Found,
    pub directory: Found,
}

/// What a LINK comes to before its directory's permission, its size and what is free are asked: a refusal, the empty slot where the new entry comes, or
/// the directory's end.
pub(crate) enum Judged {
    Refused(Stat),
    InPlace(Spot),
    AtEnd,
}

/// Finds the two files of a LINK; none where one of the handles is stale. Nothing is changed.
pub(crate) fn find_ends<S: Stable>(
    store: &mut S,
    file: FileId,
    dir: FileId,
) -> Result<Option<Ends>, Failed>
    ensures found { S.tells → IsStrong (frame (S.image store.old)) → IfOk result (FindsEnds (S.image store.old) file dir) }
    ensures within { IfOk result (λ ends. IfSome ends (λ e. (inode_sector file.ino < S.sector_count store.old) × (inode_sector dir.ino < S.sector_count store.old))) }
    ensures cause { HasCause (S.faults store.old) (S.faults store.new) result }
    ensures looked { Looked S.Stable store.old store.new }
{
    let Some(node) = find(store, file)? else {
        return Ok(None);
    };
    let Some(directory) = find(store, dir)? else {
        return Ok(None);
    };
    Ok(Some(Ends { node, directory }))
}

/// Judges a LINK of files that stand (RFC 1094 2.2.13), up to what has its name: ROFS, ISDIR for a directory, NOTDIR, the refusals of its name, EXIST.
/// Nothing is changed.
pub(crate) fn judge_link<S: Stable>(
    store: &mut S,
    file: FileId,
    dir: FileId,
    ends: &Ends,
    name: &Name,
) -> Result<Judged, Failed>
    ensures judged { S.tells → IsStrong (frame (S.image store.old)) → IsFile (S.image store.old) file ends.now.node → IsFile (S.image store.old) dir ends.now.directory → IfOk result (JudgesLink (S.image store.old) file dir name.now) }
    ensures within { IfOk result (JudgedWithin (S.sector_count store.old) dir name.now) }
    ensures cause { HasCause (S.faults store.old) (S.faults store.new) result }
    ensures looked { Looked S.Stable store.old store.new }
{
    let node = attributes_of(file.ino, &ends.node.inode);
    let directory = attributes_of(dir.ino, &ends.directory.inode);
    let read_only = ends.directory.read_only;
    match link_refusal(read_only, node.kind, directory.kind, name) {
        Some(status) => return Ok(Judged::Refused(status)),
        None => {}
    }
    match find_place(store, dir, &ends.directory, name)? {
        NamePlace::Taken(_) => Ok(Judged::Refused(Stat::Exist)),
        NamePlace::Empty(spot) => Ok(Judged::InPlace(Spot {
            directory: dir,
            ..spot
        })),
        NamePlace::End => Ok(Judged::AtEnd),
    }
}
