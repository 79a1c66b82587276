// Whether a new directory may be made, and as which i-number.

ghost use Rattle.std.specs.Prelude.{◌≡◌, ◌<◌, ◌+◌, ℕ, List, if◌then◌else◌};
ghost use Rattle.files_model.specs.Files.{Node};
ghost use Rattle.files_model.specs.declared.attributes.Sattr.{Sattr};
ghost use Rattle.plan_mkdir.specs.Judging.{JudgesNew};
ghost use Rattle.plan_name.specs.Growth.{added_blocks};
ghost use Rattle.plan_name.specs.Judging.{IsTold};
ghost use Rattle.stable.specs.Store.{Image};
ghost use Rattle.v7_map.specs.View.{view};

use files_model::{Attr, Cred, Stat};
use plan_name::{added_blocks, entry_refusal};
use v7_sets::Sets;

/// The lowest i-number of a file but the root.
const FIRST_NUMBER: u32 = 3;

/// How long a slot of a directory is, in bytes (filsys(5)).
const SLOT_BYTES: u32 = 16;

/// How many links a parent has at most when it gets one more.
const MOST_LINKS: u16 = 32_767;

// How many bytes a parent has with one entry more. A size of 2 ^ 32 - 16 or more, which no directory has, stays.
fn size_with_entry(size: u32, at_end: bool) -> u32
    ensures { size + 16 < 4294967296 → result ≡ (if at_end then size + 16 else size) }
{
    if at_end {
        return size.saturating_add(SLOT_BYTES);
    }
    size
}

// How many blocks a new directory takes, with those that its parent takes besides.
fn blocks_needed(size: u32, at_end: bool) -> u32
    ensures { result ≡ 1 + (if at_end then added_blocks size else 0) }
{
    if at_end {
        return 1 + added_blocks(size);
    }
    1
}

/// Judges a MKDIR of a free name (RFC 1094 2.2.15) by the attributes of the parent, whether the new entry comes at its end, and what is free: the i-number
/// of the new directory, the lowest that one may have. It is refused with ACCES where the caller may not write and search the parent, FBIG where the parent
/// would be above 70,656 bytes, NOSPC where there is no i-number, the parent has 32,767 links, or fewer blocks are free than both take.
pub fn judge_new(parent: &Attr, at_end: bool, sets: &Sets, cred: &Cred) -> Result<u32, Stat>
    ensures { (image : Image) (p : ℕ) (d : Node) (name : List ℕ) (wanted : Sattr) (now : ℕ) → IsTold image p d parent.now at_end sets.now.blocks sets.now.inodes → JudgesNew (view image) p d name wanted cred.now now result }
{
    let longer = size_with_entry(parent.size, at_end);
    match entry_refusal(parent, cred, 0, longer) {
        Some(status) => return Err(status),
        None => {}
    }
    let Some(number) = sets.inodes.lowest_from(FIRST_NUMBER) else {
        return Err(Stat::Nospc);
    };
    if parent.nlink >= MOST_LINKS {
        return Err(Stat::Nospc);
    }
    let needed = blocks_needed(parent.size, at_end);
    if sets.blocks.count() < needed {
        return Err(Stat::Nospc);
    }
    Ok(number)
}
