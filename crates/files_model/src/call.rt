//! Calls.

use crate::{Cred, Data, FileId, Name, Sattr, Text};

/// A call on a volume: the procedures of NFS version 2 with their arguments (RFC 1094 2.2). Offsets and counts are in bytes.
#[derive(Drop)]
pub enum Call {
    Getattr {
        file: FileId,
    },
    Setattr {
        file: FileId,
        set: Sattr,
    },
    Lookup {
        dir: FileId,
        name: Name,
    },
    Readlink {
        file: FileId,
    },
    Read {
        file: FileId,
        offset: u32,
        count: u32,
    },
    Write {
        file: FileId,
        offset: u32,
        bytes: Data,
    },
    Create {
        dir: FileId,
        name: Name,
        set: Sattr,
    },
    Remove {
        dir: FileId,
        name: Name,
    },
    Rename {
        from: FileId,
        name: Name,
        to: FileId,
        new_name: Name,
    },
    Link {
        file: FileId,
        dir: FileId,
        name: Name,
    },
    Symlink {
        dir: FileId,
        name: Name,
        text: Text,
        set: Sattr,
    },
    Mkdir {
        dir: FileId,
        name: Name,
        set: Sattr,
    },
    Rmdir {
        dir: FileId,
        name: Name,
    },
    Readdir {
        dir: FileId,
        cookie: u32,
        count: u32,
    },
    Statfs {
        file: FileId,
    },
}

/// One WRITE of a batch to one file (RFC 1094 2.2.9). The offset is in bytes.
#[derive(Drop)]
pub struct WriteItem {
    pub cred: Cred,
    pub offset: u32,
    pub bytes: Data,
}
