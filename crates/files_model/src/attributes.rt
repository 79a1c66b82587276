//! What is said of a file beside its content.

/// The types of a file that are served (RFC 1094 2.3.2, ftype).
#[derive(Clone, Copy, Debug, PartialEq, Eq)]
pub enum Kind {
    Regular,
    Directory,
    Link,
}

/// The name of a file in a handle: its i-number, and how often that number has been given to a new file.
#[derive(Clone, Copy, Debug, PartialEq, Eq)]
pub struct FileId {
    pub ino: u32,
    pub generation: u32,
}

/// Attributes (RFC 1094 2.3.5, fattr). The mode has the twelve permission bits alone, the size is in bytes, times are in seconds.
#[derive(Clone, Copy, Debug, PartialEq, Eq)]
pub struct Attr {
    pub kind: Kind,
    pub mode: u16,
    pub nlink: u16,
    pub uid: u16,
    pub gid: u16,
    pub size: u32,
    pub fileid: u32,
    pub atime: u32,
    pub mtime: u32,
    pub ctime: u32,
}

/// The attributes to be set (RFC 1094 2.3.6, sattr). One that is not set stays, or takes its usual value in a new file.
#[derive(Clone, Copy, Debug, PartialEq, Eq)]
pub struct Sattr {
    pub mode: Option<u32>,
    pub uid: Option<u32>,
    pub gid: Option<u32>,
    pub size: Option<u32>,
    pub atime: Option<u32>,
    pub mtime: Option<u32>,
}
