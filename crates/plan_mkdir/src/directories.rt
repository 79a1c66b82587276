// New directories: their inodes and first sectors.

ghost use Rattle.std.specs.Prelude.{◌≡◌, ◌≢◌, ◌<◌, ◌^◌, ◌∷◌, replicate};
ghost use Rattle.name_plans.specs.MakingDirectory.{AreDots};
ghost use Rattle.plan_mkdir.specs.Inodes.{IsDirectoryInode};
ghost use Rattle.v7_layout.specs.Written.{AddressesFit};

use files_model::{Cred, Sattr};
use plan_name::new_file;
use v7_layout::Inode;
use v7_read::empty_sector;
use v7_strokes::{slot_of, with_slot};

/// The type of a directory in the four highest bits of a mode (filsys(5)).
const DIRECTORY: u16 = 4;

/// The permission bits of a new directory where none are set.
const USUAL_MODE: u32 = 0o777;

/// How long a new directory is, in bytes: `.` and `..`.
const TWO_SLOTS: u32 = 32;

/// A new directory: its i-number, and the block of its first sector.
#[derive(Clone, Copy)]
pub struct NewDirectory {
    pub ino: u32,
    pub block: u32,
}

/// The first sector of a new directory (filsys(5)): `.`, which names itself, `..`, which names its parent, and else empty slots.
pub fn dots_sector(ino: u16, parent: u16) -> [u8; 512]
    requires own { ino ≢ 0 }
    requires up { parent ≢ 0 }
    ensures { AreDots result ino parent }
{
    let sector = with_slot(&empty_sector(), 0, &slot_of(ino, b"."));
    with_slot(&sector, 1, &slot_of(parent, b".."))
}

// The blocks of the first ten sectors of a file that has the first one alone.
fn first_alone(block: u32) -> [u32; 10]
    ensures { result ≡ block ∷ replicate 9 0 }
{
    [block, 0, 0, 0, 0, 0, 0, 0, 0, 0]
}

/// The inode of a new directory (RFC 1094 2.2.15) whose first sector stands in this block: the mode that is set, two links, the caller's ids, or for user 0
/// the set ones, and all times now.
#[tactic(auto, unfolding(v7_strokes::specs::Inodes::made_inode, v7_strokes::specs::Inodes::placed_inode))]
pub fn new_directory(wanted: &Sattr, cred: &Cred, now: u32, generation: u32, block: u32) -> Inode
    requires { block < 2 ^ 24 }
    ensures inode { IsDirectoryInode result wanted.now cred.now now generation block }
    ensures fits { AddressesFit result }
{
    let file = new_file(wanted, cred, now, generation);
    let mode = (wanted.mode.unwrap_or(USUAL_MODE) % 4096) as u16;
    Inode {
        mode: DIRECTORY * 4096 + mode,
        nlink: 2,
        size: TWO_SLOTS,
        direct: first_alone(block),
        ..file
    }
}
