//! Entries of a directory.

use crate::Name;
use lists::Items;

/// One entry of a directory (RFC 1094 2.2.17, entry). The cookie leads to the next one.
#[derive(Drop)]
pub struct Entry {
    pub fileid: u32,
    pub name: Name,
    pub cookie: u32,
}

/// Entries in the order of their slots.
pub type Entries = Items<Entry>;
