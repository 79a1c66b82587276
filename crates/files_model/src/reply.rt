//! Replies.

use crate::{Attr, Data, Entries, FileId, Text};

/// The statuses of a refusal (RFC 1094 2.3.1, stat).
#[derive(Clone, Copy, Debug, PartialEq, Eq)]
pub enum Stat {
    Perm,
    Noent,
    Io,
    Nxio,
    Acces,
    Exist,
    Notdir,
    Isdir,
    Fbig,
    Nospc,
    Rofs,
    Nametoolong,
    Notempty,
    Stale,
}

/// The answer to a call (RFC 1094 2.2). `Space` counts blocks of 512 bytes.
#[derive(Drop)]
pub enum Reply {
    Refused(Stat),
    Attr(Attr),
    Handle { file: FileId, attr: Attr },
    Text(Text),
    Data { attr: Attr, bytes: Data },
    Done,
    Entries { list: Entries, end: bool },
    Space { blocks: u32, free: u32 },
}

/// What fills the places of a list of fixed capacity that aren't used.
impl Default for Reply {
    fn default() -> Reply {
        Reply::Done
    }
}
