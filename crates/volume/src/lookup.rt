// LOOKUP (RFC 1094 2.2.5).
ghost use Rattle.files_model.specs.declared.call.Call.TheVariants.{Lookup};
ghost use Rattle.stable.specs.Looked.{Looked};
ghost use Rattle.volume.specs.Applied.{IsApplied};

use crate::outcome::Outcome;
use files_model::{Cred, FileId, Name, Reply, Stat};
use stable::Stable;
use v7_entries::{find_entry, lookup_refusal_of, read_inode, search_refusal_of};
use v7_map::attributes_of;
use v7_read::find;

/// Looks up a name in a directory, by its first slot of that name: the handle and the attributes of what it leads to. Each sector of the directory
/// is read at most once. Nothing is changed.
pub fn lookup<S: Stable>(store: &mut S, dir: FileId, name: &Name, cred: &Cred, now: u32) -> Outcome
    ensures applied { IsApplied S.Stable store.old store.new (Lookup dir name.now) cred.now now result }
    ensures looked { Looked S.Stable store.old store.new }
{
    let found = match find(store, dir) {
        Ok(Some(found)) => found,
        Ok(None) => return Outcome::Reply(Reply::Refused(Stat::Stale)),
        Err(_) => return Outcome::Io,
    };
    if let Some(status) = lookup_refusal_of(&found.inode, name) {
        return Outcome::Reply(Reply::Refused(status));
    }
    let entry = match find_entry(store, &found.inode, name) {
        Ok(Some(entry)) => entry,
        Ok(None) => return Outcome::Reply(Reply::Refused(Stat::Noent)),
        Err(_) => return Outcome::Io,
    };
    if let Some(why) = search_refusal_of(dir.ino, &found.inode, cred) {
        return Outcome::Reply(Reply::Refused(why));
    }
    let ino = entry.ino as u32;
    match read_inode(store, ino) {
        Ok(Some(inode)) => {
            let file = FileId {
                ino,
                generation: inode.generation,
            };
            let attr = attributes_of(ino, &inode);
            Outcome::Reply(Reply::Handle { file, attr })
        }
        Ok(None) => Outcome::Reply(Reply::Refused(Stat::Noent)),
        Err(_) => Outcome::Io,
    }
}
