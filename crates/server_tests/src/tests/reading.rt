//! READDIR and READLINK, through datagrams.

use server_runs::outside::{datagram, has_sent_all, served_all};
use server_runs::volumes::rig;
use server_runs::worked::{CALL, CREDENTIAL, REPLY, add_words};
use std::alloc::Global;
use std::test::Fail;
use volume_mem::{FRESH, Shape};

// The procedures (RFC 1094 2.2).
const READLINK: u32 = 5;

const READDIR: u32 = 16;

// The handle of the root of volume 0, one of a generation that it hasn't, and that of file 3.
const ROOT: [u32; 8] = [0x56374e32, 0, 2, 1, 0, 0, 0, 0];

const OLD_ROOT: [u32; 8] = [0x56374e32, 0, 2, 2, 0, 0, 0, 0];

const FILE: [u32; 8] = [0x56374e32, 0, 3, 1, 0, 0, 0, 0];

// The volume where file 3, of 1,024 bytes, is a symbolic link.
const LINK: Shape = Shape {
    mode: 0o120_777,
    ..FRESH
};

// A procedure, its handle, the words of its other arguments, and the words of the reply from the status on.
type Row = (u32, [u32; 8], &'static [u32], &'static [&'static [u32]]);

// The entries of the root: those of `.`, `..` and `f`, each with the cookie of the next.
const DOT: [u32; 5] = [1, 2, 1, 0x2e000000, 1];

const DOTS: [u32; 5] = [1, 2, 2, 0x2e2e0000, 2];

const NAMED: [u32; 5] = [1, 3, 1, 0x66000000, 3];

// Two entries of 20 bytes and twelve bytes more are 52.
const ROWS: [Row; 9] = [
    (
        READDIR,
        ROOT,
        &[0, 512],
        &[&[0], &DOT, &DOTS, &NAMED, &[0, 1]],
    ),
    (READDIR, ROOT, &[2, 512], &[&[0], &NAMED, &[0, 1]]),
    (READDIR, ROOT, &[0, 0], &[&[0], &DOT, &[0, 0]]),
    (READDIR, ROOT, &[0, 52], &[&[0], &DOT, &DOTS, &[0, 0]]),
    (READDIR, ROOT, &[3, 512], &[&[0], &[0, 1]]),
    (READDIR, OLD_ROOT, &[0, 512], &[&[70]]),
    (READDIR, FILE, &[0, 512], &[&[20]]),
    (READLINK, ROOT, &[], &[&[6]]),
    (READLINK, FILE, &[], &[&[6]]),
];

const LINK_ROWS: [Row; 2] = [
    (READLINK, FILE, &[], &[&[0, 1024], &[0x61616161; 256]]),
    (READLINK, OLD_ROOT, &[], &[&[70]]),
];

fn request(alloc: Global, row: Row) -> Result<Vec<u8>, Fail> {
    let mut bytes = Vec::new(alloc);
    add_words(&mut bytes, &CALL)?;
    add_words(&mut bytes, &[row.0])?;
    add_words(&mut bytes, &CREDENTIAL)?;
    add_words(&mut bytes, &row.1)?;
    add_words(&mut bytes, row.2)?;
    Ok(bytes)
}

fn reply(alloc: Global, row: Row) -> Result<Vec<u8>, Fail> {
    let mut bytes = Vec::new(alloc);
    add_words(&mut bytes, &REPLY)?;
    for words in row.3 {
        add_words(&mut bytes, words)?;
    }
    Ok(bytes)
}

// Whether a volume of this shape answers each row so.
fn answers(alloc: Global, shape: Shape, rows: &[Row]) -> Result<bool, Fail> {
    let mut events = Vec::new(alloc);
    let mut replies = Vec::new(alloc);
    for row in rows {
        events.push(datagram(&request(alloc, *row)?))?;
        replies.push(reply(alloc, *row)?)?;
    }
    let (status, host) = served_all(alloc, rig(alloc, shape)?, events)?;
    Ok(status == 0 && has_sent_all(&host, &replies))
}

#[test]
fn a_directory_is_listed(rt: HostRuntime) -> Result<(), Fail> {
    assert!(rt; answers(rt.alloc(), FRESH, &ROWS)?);
    Ok(())
}

#[test]
fn a_link_of_1024_bytes_is_read(rt: HostRuntime) -> Result<(), Fail> {
    assert!(rt; answers(rt.alloc(), LINK, &LINK_ROWS)?);
    Ok(())
}
