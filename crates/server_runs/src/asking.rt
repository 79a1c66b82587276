//! Calls by their words, and runs over them.

use crate::outside::{datagram, has_sent_all, rig_of, served_all};
use crate::worked::{CALL, REPLY, add_words};
use rig_mem::MemRig;
use std::alloc::Global;
use std::test::Fail;

// The procedures (RFC 1094 2.2); WRITE stands with the worked one.
pub const GETATTR: u32 = 1;

pub const SETATTR: u32 = 2;

pub const LOOKUP: u32 = 4;

pub const READLINK: u32 = 5;

pub const READ: u32 = 6;

pub const CREATE: u32 = 9;

pub const REMOVE: u32 = 10;

pub const RENAME: u32 = 11;

pub const LINK: u32 = 12;

pub const SYMLINK: u32 = 13;

pub const MKDIR: u32 = 14;

pub const RMDIR: u32 = 15;

pub const READDIR: u32 = 16;

pub const STATFS: u32 = 17;

/// The handle of the root of volume 0, and one of a generation that it hasn't.
pub const ROOT: [u32; 8] = [0x56374e32, 0, 2, 1, 0, 0, 0, 0];

pub const OLD_ROOT: [u32; 8] = [0x56374e32, 0, 2, 2, 0, 0, 0, 0];

/// The handle of file 3 as the volume is made.
pub const FILE: [u32; 8] = [0x56374e32, 0, 3, 1, 0, 0, 0, 0];

/// The credential of user 0 and group 0, whom each directory lets in.
pub const SUPERUSER: [u32; 10] = [1, 0x18, 0, 1, 0x63000000, 0, 0, 0, 0, 0];

/// The attributes of a sattr where none is set.
pub const UNSET: [u32; 8] = [u32::MAX; 8];

/// The attributes of file 3 and of the root as the volume is made.
pub const FILE_MADE: [u32; 17] = [
    1, 0x81a4, 1, 0x64, 0x64, 0x400, 0x200, 0, 2, 0, 3, 0x3e8, 0, 0x3e8, 0, 0x3e8, 0,
];

pub const ROOT_MADE: [u32; 17] = [
    2, 0x41ed, 2, 0, 0, 48, 0x200, 0, 1, 0, 2, 0x3e8, 0, 0x3e8, 0, 0x3e8, 0,
];

/// The root when its names were changed at second 2000.
pub const ROOT_CHANGED: [u32; 17] = [
    2, 0x41ed, 2, 0, 0, 48, 0x200, 0, 1, 0, 2, 0x3e8, 0, 0x7d0, 0, 0x7d0, 0,
];

/// A handle of file 4 of generation 1, and the attributes of that file where user 0 made it at second 2000 and set nothing.
pub const FOURTH: [u32; 8] = [0x56374e32, 0, 4, 1, 0, 0, 0, 0];

pub const FOURTH_MADE: [u32; 17] = [
    1, 0x81b6, 1, 0, 0, 0, 0x200, 0, 0, 0, 4, 0x7d0, 0, 0x7d0, 0, 0x7d0, 0,
];

/// The name `f`, of file 3, and others, as arguments have them.
pub const F: [u32; 2] = [1, 0x66000000];

pub const G: [u32; 2] = [1, 0x67000000];

/// A procedure, its handle, the words of its other arguments, and those of the reply from the status on.
pub type Row = (
    u32,
    [u32; 8],
    &'static [&'static [u32]],
    &'static [&'static [u32]],
);

/// The datagram of such a call of that user.
pub fn request(alloc: Global, user: &[u32; 10], row: Row) -> Result<Vec<u8>, Fail> {
    let mut bytes = Vec::new(alloc);
    add_words(&mut bytes, &CALL)?;
    add_words(&mut bytes, &[row.0])?;
    add_words(&mut bytes, user)?;
    add_words(&mut bytes, &row.1)?;
    for words in row.2 {
        add_words(&mut bytes, words)?;
    }
    Ok(bytes)
}

/// The datagram of its reply.
pub fn reply(alloc: Global, row: Row) -> Result<Vec<u8>, Fail> {
    let mut bytes = Vec::new(alloc);
    add_words(&mut bytes, &REPLY)?;
    for words in row.3 {
        add_words(&mut bytes, words)?;
    }
    Ok(bytes)
}

/// Serves these calls of that user in one run. The rig afterwards, where each had its reply and the run ended well.
pub fn answered(
    alloc: Global,
    rig: MemRig,
    user: &[u32; 10],
    rows: &[Row],
) -> Result<Option<MemRig>, Fail> {
    let mut events = Vec::new(alloc);
    let mut replies = Vec::new(alloc);
    for row in rows {
        events.push(datagram(&request(alloc, user, *row)?))?;
        replies.push(reply(alloc, *row)?)?;
    }
    let (status, host) = served_all(alloc, rig, events)?;
    if status == 0 && has_sent_all(&host, &replies) {
        Ok(rig_of(host))
    } else {
        Ok(None)
    }
}
