// The inodes of new links.

ghost use Rattle.std.specs.Prelude.{◌≡◌, ◌<◌, ◌^◌, All};
ghost use Rattle.files_model.specs.NameRows.{new_link};
ghost use Rattle.longer_plans.specs.SymlinkPuts.{held_inode};
ghost use Rattle.plan_symlink.specs.TextBlocks.{text_list};
ghost use Rattle.v7_layout.specs.Written.{AddressesFit};

use crate::text_blocks::{TextBlocks, direct_of};
use files_model::{Cred, Sattr, Text};
use plan_name::new_file;
use v7_layout::Inode;

/// The type of a symbolic link in the four highest bits of a mode (filsys(5)).
const LINK: u16 = 10;

/// The permission bits of a link, whatever is set.
const LINK_MODE: u16 = 0o777;

/// The inode of a new symbolic link (RFC 1094 2.2.14) whose text stands in these blocks: mode 0777, the text's length, the caller's ids, or for user 0 the
/// set ones, and all times now.
#[tactic(auto, unfolding(v7_strokes::specs::Inodes::made_inode, longer_plans::specs::SymlinkPuts::held_inode))]
pub(crate) fn new_link(
    text: &Text,
    held: &TextBlocks,
    wanted: &Sattr,
    cred: &Cred,
    now: u32,
    generation: u32,
) -> Inode
    requires { All (λ block. block < 2 ^ 24) (text_list held.now) }
    ensures inode { result ≡ held_inode (new_link wanted.now cred.now text.now now) generation (text_list held.now) }
    ensures fits { AddressesFit result }
{
    let file = new_file(wanted, cred, now, generation);
    Inode {
        mode: LINK * 4096 + LINK_MODE,
        size: text.bytes().len() as u32,
        direct: direct_of(held),
        ..file
    }
}
