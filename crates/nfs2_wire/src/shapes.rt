//! The shapes of arguments (RFC 1094 2.2 and 2.3).
ghost use Rattle.std.specs.Prelude.{◌≡◌, ◌≤◌, length, IfSome};
ghost use Rattle.xdr_rpc.specs.Words.{Gives};
ghost use Rattle.nfs2_wire.specs.Shapes.{set_of, sattr, set_args, dirop, name_args, new_args, rename_args, link_args, symlink_args, part_args};

use crate::arguments::HANDLE;
use files_model::Sattr;
use xdr_rpc::{fixed_at, opaque_at, word_at};

/// The longest name, in bytes (RFC 1094 2.3, MAXNAMLEN).
const LONGEST_NAME: u32 = 255;

/// The longest text, in bytes (RFC 1094 2.3, MAXPATHLEN).
const LONGEST_TEXT: u32 = 1024;

/// The word of what is not set.
const UNSET: u32 = 0xffffffff;

fn set_from(word: u32) -> Option<u32>
    ensures { result ≡ set_of word }
{
    if word == UNSET { None } else { Some(word) }
}

#[tactic(auto, unfolding(crate::specs::Shapes::sattr))]
fn sattr_at(bytes: &[u8]) -> Option<(Sattr, &[u8])>
    ensures { Gives (λ x. (x.0, x.1.now)) result (sattr bytes.now) }
{
    let (mode, rest) = word_at(bytes)?;
    let (uid, rest) = word_at(rest)?;
    let (gid, rest) = word_at(rest)?;
    let (size, rest) = word_at(rest)?;
    let (atime, rest) = word_at(rest)?;
    let (_micro, rest) = word_at(rest)?;
    let (mtime, rest) = word_at(rest)?;
    let (_micro, rest) = word_at(rest)?;
    let set = Sattr {
        mode: set_from(mode),
        uid: set_from(uid),
        gid: set_from(gid),
        size: set_from(size),
        atime: set_from(atime),
        mtime: set_from(mtime),
    };
    Some((set, rest))
}

#[derive(Clone, Copy)]
pub struct Dirop<'a> {
    pub dir: &'a [u8],
    pub name: &'a [u8],
}

#[tactic(auto, unfolding(crate::specs::Shapes::dirop))]
fn dirop_at(bytes: &[u8]) -> Option<(Dirop<'_>, &[u8])>
    ensures value { Gives (λ x. ((x.0.dir.now, x.0.name.now), x.1.now)) result (dirop bytes.now) }
    ensures bound { IfSome result (λ x. length x.0.name.now ≤ 255) }
{
    let (dir, rest) = fixed_at(bytes, HANDLE)?;
    let (name, rest) = opaque_at(rest, LONGEST_NAME)?;
    Some((Dirop { dir, name }, rest))
}

/// A handle and attributes.
#[tactic(auto, unfolding(crate::specs::Shapes::set_args))]
pub fn set_args_of(bytes: &[u8]) -> Option<(&[u8], Sattr)>
    ensures { Gives (λ x. (x.0.now, x.1)) result (set_args bytes.now) }
{
    let (handle, rest) = fixed_at(bytes, HANDLE)?;
    let (set, _rest) = sattr_at(rest)?;
    Some((handle, set))
}

/// A handle and a name.
#[tactic(auto, unfolding(crate::specs::Shapes::name_args))]
pub fn name_args_of(bytes: &[u8]) -> Option<Dirop<'_>>
    ensures value { Gives (λ x. (x.dir.now, x.name.now)) result (name_args bytes.now) }
    ensures bound { IfSome result (λ x. length x.name.now ≤ 255) }
{
    let (at, _rest) = dirop_at(bytes)?;
    Some(at)
}

#[derive(Clone, Copy)]
pub struct NewArgs<'a> {
    pub at: Dirop<'a>,
    pub set: Sattr,
}

/// A handle, a name and attributes.
#[tactic(auto, unfolding(crate::specs::Shapes::new_args))]
pub fn new_args_of(bytes: &[u8]) -> Option<NewArgs<'_>>
    ensures value { Gives (λ x. (x.at.dir.now, x.at.name.now, x.set)) result (new_args bytes.now) }
    ensures bound { IfSome result (λ x. length x.at.name.now ≤ 255) }
{
    let (at, rest) = dirop_at(bytes)?;
    let (set, _rest) = sattr_at(rest)?;
    Some(NewArgs { at, set })
}

#[derive(Clone, Copy)]
pub struct RenameArgs<'a> {
    pub from: Dirop<'a>,
    pub to: Dirop<'a>,
}

/// A handle and a name, twice.
#[tactic(auto, unfolding(crate::specs::Shapes::rename_args))]
pub fn rename_args_of(bytes: &[u8]) -> Option<RenameArgs<'_>>
    ensures value { Gives (λ x. (x.from.dir.now, x.from.name.now, x.to.dir.now, x.to.name.now)) result (rename_args bytes.now) }
    ensures old { IfSome result (λ x. length x.from.name.now ≤ 255) }
    ensures new { IfSome result (λ x. length x.to.name.now ≤ 255) }
{
    let (from, rest) = dirop_at(bytes)?;
    let (to, _rest) = dirop_at(rest)?;
    Some(RenameArgs { from, to })
}

#[derive(Clone, Copy)]
pub struct LinkArgs<'a> {
    pub file: &'a [u8],
    pub to: Dirop<'a>,
}

/// Two handles and a name.
#[tactic(auto, unfolding(crate::specs::Shapes::link_args))]
pub fn link_args_of(bytes: &[u8]) -> Option<LinkArgs<'_>>
    ensures value { Gives (λ x. (x.file.now, x.to.dir.now, x.to.name.now)) result (link_args bytes.now) }
    ensures bound { IfSome result (λ x. length x.to.name.now ≤ 255) }
{
    let (file, rest) = fixed_at(bytes, HANDLE)?;
    let (to, _rest) = dirop_at(rest)?;
    Some(LinkArgs { file, to })
}

#[derive(Clone, Copy)]
pub struct SymlinkArgs<'a> {
    pub at: Dirop<'a>,
    pub text: &'a [u8],
    pub set: Sattr,
}

/// A handle, a name, a text and attributes.
#[tactic(auto, unfolding(crate::specs::Shapes::symlink_args))]
pub fn symlink_args_of(bytes: &[u8]) -> Option<SymlinkArgs<'_>>
    ensures value { Gives (λ x. (x.at.dir.now, x.at.name.now, x.text.now, x.set)) result (symlink_args bytes.now) }
    ensures name { IfSome result (λ x. length x.at.name.now ≤ 255) }
    ensures text { IfSome result (λ x. length x.text.now ≤ 1024) }
{
    let (at, rest) = dirop_at(bytes)?;
    let (text, rest) = opaque_at(rest, LONGEST_TEXT)?;
    let (set, _rest) = sattr_at(rest)?;
    Some(SymlinkArgs { at, text, set })
}

#[derive(Clone, Copy)]
pub struct PartArgs<'a> {
    pub handle: &'a [u8],
    pub first: u32,
    pub count: u32,
}

/// A handle, cookie and count.
#[tactic(auto, unfolding(crate::specs::Shapes::part_args))]
pub fn part_args_of(bytes: &[u8]) -> Option<PartArgs<'_>>
    ensures { Gives (λ x. (x.handle.now, x.first, x.count)) result (part_args bytes.now) }
{
    let (handle, rest) = fixed_at(bytes, HANDLE)?;
    let (first, rest) = word_at(rest)?;
    let (count, _rest) = word_at(rest)?;
    Some(PartArgs {
        handle,
        first,
        count,
    })
}
