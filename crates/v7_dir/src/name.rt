// Names that may be made.

ghost use Rattle.std.specs.Prelude.{◌≡◌};
ghost use Rattle.files_model.specs.Names.{is_bad, is_dots};
ghost use Rattle.v7_dir.specs.Names.{is_good_name};

use files_model::Name;

/// How many bytes of name a slot has (filsys(5)).
pub const MOST_NAME: usize = 14;

/// Whether the name is empty, or has a byte 0 or a slash.
#[tactic(auto, using(crate::proofs::BadNames::bad_is))]
pub fn is_bad(name: &[u8]) -> bool
    ensures { result ≡ is_bad name.now }
{
    name.is_empty() || name.contains(&0) || name.contains(&b'/')
}

/// Whether the name is `.` or `..`.
pub fn is_dots(name: &[u8]) -> bool
    ensures { result ≡ is_dots name.now }
{
    name == b".".as_slice() || name == b"..".as_slice()
}

/// Whether an entry of this name may be made (filsys(5); RFC 1094 2.3.8, filename): it has 1 to 14 bytes, none of them zero or a `/`,
/// and is neither `.` nor `..`.
#[tactic(auto, unfolding(crate::specs::Names::is_good_name))]
pub fn good_name(name: &Name) -> bool
    ensures { result ≡ is_good_name name.now }
{
    let bytes = name.bytes();
    !is_bad(bytes) && !is_dots(bytes) && bytes.len() <= MOST_NAME
}
