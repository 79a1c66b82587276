// The inodes of new nodes.

ghost use Rattle.std.specs.Prelude.{◌≡◌, ◌<◌};
ghost use Rattle.files_model.specs.Names.{new_file, new_id};
ghost use Rattle.v7_layout.specs.Written.{AddressesFit};
ghost use Rattle.v7_strokes.specs.Inodes.{made_inode};

use files_model::{Cred, Sattr};
use plan_file::id_of;
use v7_layout::Inode;

/// The type of a regular file in the four highest bits of a mode (filsys(5)).
const REGULAR: u16 = 8;

/// The permission bits of a new file where none are set.
const USUAL_MODE: u32 = 0o666;

// The owner or group of a new node: the set one where the caller is user 0, else the caller's.
fn new_id(cred: &Cred, wanted: Option<u32>, own: u16) -> u16
    ensures { result ≡ new_id cred.now wanted own }
{
    if cred.uid != 0 {
        return own;
    }
    match wanted {
        Some(id) => id_of(id),
        None => own,
    }
}

/// The inode of a new regular file (RFC 1094 2.2.10): the mode and size that are set, the caller's ids, or for user 0 the set ones, and all times now.
#[tactic(auto, unfolding(v7_strokes::specs::Inodes::made_inode))]
pub fn new_file(wanted: &Sattr, cred: &Cred, now: u32, generation: u32) -> Inode
    ensures inode { result ≡ made_inode (new_file wanted.now cred.now now) generation }
    ensures fits { AddressesFit result }
{
    let mode = (wanted.mode.unwrap_or(USUAL_MODE) % 4096) as u16;
    Inode {
        mode: REGULAR * 4096 + mode,
        nlink: 1,
        uid: new_id(cred, wanted.uid, cred.uid),
        gid: new_id(cred, wanted.gid, cred.gid),
        size: wanted.size.unwrap_or(0),
        direct: [0; 10],
        single: 0,
        double: 0,
        generation,
        atime: now,
        mtime: now,
        ctime: now,
    }
}
