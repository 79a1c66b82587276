// Whether a new link may be made, and as which i-number.

ghost use Rattle.std.specs.Prelude.{◌≡◌, ◌≤◌, ◌+◌, ℕ, List, length, IfOk, if◌then◌else◌};
ghost use Rattle.files_model.specs.Files.{Node, sectors_of};
ghost use Rattle.files_model.specs.declared.attributes.FileId.{FileId};
ghost use Rattle.files_model.specs.declared.attributes.Sattr.{Sattr};
ghost use Rattle.index_sets.specs.Free.{count_free};
ghost use Rattle.plan_name.specs.Growth.{added_blocks};
ghost use Rattle.plan_name.specs.Judging.{IsTold};
ghost use Rattle.plan_symlink.specs.Judging.{IsFreeName, JudgesLink};
ghost use Rattle.stable.specs.Store.{Image};
ghost use Rattle.v7_map.specs.View.{view};

use files_model::{Attr, Cred, Stat};
use plan_name::{blocks_for_entry, entry_refusal, size_with_entry};
use v7_sets::Sets;

/// The lowest i-number of a file but the root.
const FIRST_NUMBER: u32 = 3;

// How many blocks a link takes whose text has so many sectors, with those that its directory takes besides.
#[tactic(auto, unfolding(plan_name::specs::Growth::added_blocks))]
fn blocks_needed(sectors: u32, size: u32, at_end: bool) -> u32
    requires { sectors ≤ 2 }
    ensures { result ≡ sectors + (if at_end then added_blocks size else 0) }
{
    sectors + blocks_for_entry(size, at_end)
}

/// Judges a SYMLINK of a free name (RFC 1094 2.2.14) by the attributes of its directory, whether the new entry comes at its end, how many sectors its text
/// has, and what is free: the i-number of the new link, the lowest that one may have. It is refused with ACCES where the caller may not write and search the directory, FBIG where
/// the directory would be above 70,656 bytes, NOSPC where there is no i-number, or fewer blocks are free than the text and the directory take.
pub(crate) fn judge_link(
    directory: &Attr,
    at_end: bool,
    sectors: u32,
    sets: &Sets,
    cred: &Cred,
) -> Result<u32, Stat>
    requires { sectors ≤ 2 }
    ensures judged { (image : Image) (dir : FileId) (d : Node) (name text : List ℕ) (wanted : Sattr) (now : ℕ) → sectors ≡ sectors_of (length text) → IsTold image dir.ino d directory.now at_end sets.now.blocks sets.now.inodes → IsFreeName (view image) dir name d → JudgesLink (view image) dir d name text wanted cred.now now result }
    ensures enough { IfOk result (λ number. sectors + (if at_end then added_blocks directory.now.size else 0) ≤ count_free sets.now.blocks) }
{
    let longer = size_with_entry(directory.size, at_end);
    match entry_refusal(directory, cred, 0, longer) {
        Some(status) => return Err(status),
        None => {}
    }
    let Some(number) = sets.inodes.lowest_from(FIRST_NUMBER) else {
        return Err(Stat::Nospc);
    };
    let needed = blocks_needed(sectors, directory.size, at_end);
    if sets.blocks.count() < needed {
        return Err(Stat::Nospc);
    }
    Ok(number)
}
