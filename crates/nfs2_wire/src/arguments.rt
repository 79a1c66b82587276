//! The arguments of calls (RFC 1094 2.2).
ghost use Rattle.std.specs.Prelude.{◌≤◌, length, IfSome};
ghost use Rattle.xdr_rpc.specs.Words.{Gives};
ghost use Rattle.nfs2_wire.specs.Arguments.{getattr_args, read_args, write_args};

use xdr_rpc::{fixed_at, opaque_at, word_at};

/// The length of a handle, in bytes (RFC 1094 2.3.3).
pub const HANDLE: usize = 32;

/// The most bytes of one WRITE (RFC 1094 2.3, MAXDATA).
const LONGEST_DATA: u32 = 8192;

/// A handle (RFC 1094 2.2.2).
#[tactic(auto, unfolding(crate::specs::Arguments::getattr_args))]
pub fn getattr_args_of(bytes: &[u8]) -> Option<&[u8]>
    ensures { Gives (λ handle. handle.now) result (getattr_args bytes.now) }
{
    let (handle, _rest) = fixed_at(bytes, HANDLE)?;
    Some(handle)
}

/// The handle, the offset and the count of a READ (RFC 1094 2.2.7, readargs).
#[derive(Clone, Copy)]
pub struct ReadArgs<'a> {
    pub handle: &'a [u8],
    pub offset: u32,
    pub count: u32,
}

/// A handle, offset, count and totalcount.
#[tactic(auto, unfolding(crate::specs::Arguments::read_args))]
pub fn read_args_of(bytes: &[u8]) -> Option<ReadArgs<'_>>
    ensures { Gives (λ args. (args.handle.now, args.offset, args.count)) result (read_args bytes.now) }
{
    let (handle, rest) = fixed_at(bytes, HANDLE)?;
    let (offset, rest) = word_at(rest)?;
    let (count, rest) = word_at(rest)?;
    let (_totalcount, _rest) = word_at(rest)?;
    Some(ReadArgs {
        handle,
        offset,
        count,
    })
}

/// The handle, the offset and the bytes of a WRITE (RFC 1094 2.2.9, writeargs).
#[derive(Clone, Copy)]
pub struct WriteArgs<'a> {
    pub handle: &'a [u8],
    pub offset: u32,
    pub bytes: &'a [u8],
}

/// A handle, beginoffset, offset, totalcount and at most 8,192 bytes.
#[tactic(auto, unfolding(crate::specs::Arguments::write_args))]
pub fn write_args_of(bytes: &[u8]) -> Option<WriteArgs<'_>>
    ensures value { Gives (λ args. (args.handle.now, args.offset, args.bytes.now)) result (write_args bytes.now) }
    ensures bound { IfSome result (λ args. length args.bytes.now ≤ 8192) }
{
    let (handle, rest) = fixed_at(bytes, HANDLE)?;
    let (_beginoffset, rest) = word_at(rest)?;
    let (offset, rest) = word_at(rest)?;
    let (_totalcount, rest) = word_at(rest)?;
    let (bytes, _rest) = opaque_at(rest, LONGEST_DATA)?;
    Some(WriteArgs {
        handle,
        offset,
        bytes,
    })
}
