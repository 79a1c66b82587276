// Whether a new file may be made, and as which i-number.

ghost use Rattle.std.specs.Prelude.{◌≡◌, ◌<◌, ◌+◌, ℕ, List, if◌then◌else◌};
ghost use Rattle.files_model.specs.Files.{Node};
ghost use Rattle.plan_name.specs.Growth.{added_blocks};
ghost use Rattle.plan_name.specs.Judging.{IsTold, JudgesNew};
ghost use Rattle.stable.specs.Store.{Image};
ghost use Rattle.v7_map.specs.View.{view};

use crate::growth::added_blocks;
use crate::names::entry_refusal;
use files_model::{Attr, Cred, Sattr, Stat};
use v7_sets::Sets;

/// The lowest i-number of a file but the root.
const FIRST_NUMBER: u32 = 3;

/// How long a slot of a directory is, in bytes (filsys(5)).
const SLOT_BYTES: u32 = 16;

/// How many bytes a directory of this size has with one entry more, which comes at its end or in an empty slot. A size of 2 ^ 32 - 16 or more, which no
/// directory has, stays.
pub fn size_with_entry(size: u32, at_end: bool) -> u32
    ensures { size + 16 < 4294967296 → result ≡ (if at_end then size + 16 else size) }
{
    if at_end {
        return size.saturating_add(SLOT_BYTES);
    }
    size
}

/// How many blocks a directory of this size takes besides with one entry more, which comes at its end or in an empty slot.
pub fn blocks_for_entry(size: u32, at_end: bool) -> u32
    ensures { result ≡ (if at_end then added_blocks size else 0) }
{
    if at_end {
        return added_blocks(size);
    }
    0
}

/// Judges a CREATE of a free name (RFC 1094 2.2.10) by the attributes of its directory, whether the new entry comes at its end, and what is free: the
/// i-number of the new file, the lowest that one may have. It is refused with ACCES where the caller may not write and search the directory, FBIG where
/// the directory or the set size would be above 70,656 bytes, NOSPC where there is no i-number, or fewer blocks are free than the directory takes besides.
pub fn judge_new(
    directory: &Attr,
    at_end: bool,
    sets: &Sets,
    wanted: &Sattr,
    cred: &Cred,
) -> Result<u32, Stat>
    ensures { (image : Image) (p : ℕ) (d : Node) (name : List ℕ) (now : ℕ) → IsTold image p d directory.now at_end sets.now.blocks sets.now.inodes → JudgesNew (view image) p d name wanted.now cred.now now result }
{
    let size = wanted.size.unwrap_or(0);
    let longer = size_with_entry(directory.size, at_end);
    match entry_refusal(directory, cred, size, longer) {
        Some(status) => return Err(status),
        None => {}
    }
    let Some(number) = sets.inodes.lowest_from(FIRST_NUMBER) else {
        return Err(Stat::Nospc);
    };
    let needed = blocks_for_entry(directory.size, at_end);
    if sets.blocks.count() < needed {
        return Err(Stat::Nospc);
    }
    Ok(number)
}
