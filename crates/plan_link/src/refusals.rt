// What a LINK is refused with, by the attributes of its files.

ghost use Rattle.std.specs.Prelude.{◌≡◌, ℕ, List, Bool, [], ◌∷◌, ◌++◌, Some, not, ◌&&◌, ◌||◌, nat_lt, nat_le};
ghost use Rattle.files_model.specs.Answers.{first_of};
ghost use Rattle.files_model.specs.Files.{Node};
ghost use Rattle.files_model.specs.NameRows.{entry_tests, is_full_for, most_links};
ghost use Rattle.files_model.specs.Names.{name_tests, with_entry};
ghost use Rattle.files_model.specs.Permission.{allows, is_directory};
ghost use Rattle.files_model.specs.Space.{size_limit};
ghost use Rattle.files_model.specs.declared.permission.Want.TheVariants as want;
ghost use Rattle.files_model.specs.declared.reply.Stat.TheVariants as stat;
ghost use Rattle.plan_name.specs.Judging.{IsTold};
ghost use Rattle.stable.specs.Store.{Image};
ghost use Rattle.v7_map.specs.View.{view};

use crate::growth::{Growth, growth_of};
use files_model::{Attr, Cred, Kind, Name, Stat};
use index_sets::FreeSet;
use plan_name::{entry_refusal, name_refusal};

/// The greatest number of links that a LINK leaves.
const MOST_LINKS: u16 = 32_767;

/// The refusal of a LINK before its name is looked up, if any: ROFS on a read-only volume, ISDIR for a directory, NOTDIR in what is no directory, that of
/// the name.
pub(crate) fn link_refusal(
    read_only: bool,
    node: Kind,
    directory: Kind,
    name: &Name,
) -> Option<Stat>
    ensures { result ≡ first_of ((read_only, stat.Rofs) ∷ (is_directory node, stat.Isdir) ∷ (not (is_directory directory), stat.Notdir) ∷ name_tests name.now) }
{
    if read_only {
        return Some(Stat::Rofs);
    }
    if node == Kind::Directory {
        return Some(Stat::Isdir);
    }
    if directory != Kind::Directory {
        return Some(Stat::Notdir);
    }
    name_refusal(name)
}

// The refusal of a new entry for a node with so many links, where so many blocks are free, if any.
fn room_refusal(
    directory: &Attr,
    links: u16,
    growth: &Growth,
    free: u32,
    cred: &Cred,
) -> Option<Stat>
    ensures { result ≡ first_of ((not (allows cred.now directory.now want.Write && allows cred.now directory.now want.Search), stat.Acces) ∷ (nat_lt size_limit 0 || nat_lt size_limit growth.now.size, stat.Fbig) ∷ (nat_le most_links links || nat_lt free growth.now.blocks, stat.Nospc) ∷ []) }
{
    match entry_refusal(directory, cred, 0, growth.size) {
        Some(status) => return Some(status),
        None => {}
    }
    if links >= MOST_LINKS || free < growth.blocks {
        return Some(Stat::Nospc);
    }
    None
}

/// The refusal of a LINK to a free name, if any, by the attributes of its directory, the links that the node has, whether the new entry comes at the
/// directory's end, and the blocks that are free: ACCES where the caller may not write and search the directory, FBIG where the directory would be above
/// 70,656 bytes, NOSPC where the node has 32,767 links, or fewer blocks are free than the directory takes.
pub(crate) fn judge_entry(
    directory: &Attr,
    links: u16,
    at_end: bool,
    blocks: &FreeSet,
    cred: &Cred,
) -> Option<Stat>
    ensures { (image : Image) (p : ℕ) (d : Node) (inodes : List Bool) → IsTold image p d directory.now at_end blocks.now inodes → (i now : ℕ) (name : List ℕ) → result ≡ first_of (entry_tests p d cred.now 0 ++ (nat_le most_links links || is_full_for (view image) d (with_entry d (Some (i, name)) now), stat.Nospc) ∷ []) }
{
    let growth = growth_of(directory.size, at_end);
    room_refusal(directory, links, &growth, blocks.count(), cred)
}
