//! Attributes as words.
ghost use Rattle.std.specs.Prelude.{◌≡◌, ◌≤◌};
ghost use Rattle.nfs2_wire.specs.Replies.{type_of, type_bits, fattr};

use files_model::{Attr, Kind};

fn type_number(kind: Kind) -> u32
    ensures { result ≡ type_of kind }
{
    match kind {
        Kind::Regular => 1,
        Kind::Directory => 2,
        Kind::Link => 5,
    }
}

fn mode_bits(kind: Kind) -> u32
    ensures value { result ≡ type_bits kind }
    ensures bound { result ≤ 40960 }
{
    match kind {
        Kind::Regular => 0o100000,
        Kind::Directory => 0o040000,
        Kind::Link => 0o120000,
    }
}

/// Attributes as seventeen words (RFC 1094 2.3.5, fattr). The mode has the bits that tell the type, the size is counted in blocks of 512 bytes too, and each time has 0 microseconds.
pub fn attr_words(attr: &Attr, volume: u32) -> [u32; 17]
    ensures { result ≡ fattr attr.now volume }
{
    [
        type_number(attr.kind),
        mode_bits(attr.kind) + attr.mode as u32,
        attr.nlink as u32,
        attr.uid as u32,
        attr.gid as u32,
        attr.size,
        512,
        0,
        attr.size.div_ceil(512),
        volume,
        attr.fileid,
        attr.atime,
        0,
        attr.mtime,
        0,
        attr.ctime,
        0,
    ]
}
