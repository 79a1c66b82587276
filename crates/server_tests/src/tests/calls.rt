//! Calls on file 3, through datagrams.
ghost use Rattle.v7_layout.specs.Written.{AddressesFit};

use rig_mem::MemRig;
use server_runs::outside::{Host, datagram, has_sent_all, rig_of, served_all};
use server_runs::volumes::{has_files, rig, rig_with};
use server_runs::worked::{ATTRIBUTES, CALL, CREDENTIAL, HANDLE, REPLY, WRITE, add_words};
use std::alloc::Global;
use std::test::Fail;
use v7_layout::Inode;
use volume_mem::{FRESH, file, sectors_of};

// The other procedures (RFC 1094 2.2).
const GETATTR: u32 = 1;

const READ: u32 = 6;

// A procedure, the generation of the handle, the words of the other arguments, and the words of the reply from the status on.
type Row = (u32, u32, &'static [u32], &'static [&'static [u32]]);

fn datagram_of(alloc: Global, row: Row) -> Result<Vec<u8>, Fail> {
    let mut bytes = Vec::new(alloc);
    for words in [
        CALL.as_slice(),
        &[row.0],
        &CREDENTIAL,
        &HANDLE,
        &[row.1, 0, 0, 0, 0],
        row.2,
    ] {
        add_words(&mut bytes, words)?;
    }
    Ok(bytes)
}

fn reply_of(alloc: Global, row: Row) -> Result<Vec<u8>, Fail> {
    let mut bytes = Vec::new(alloc);
    add_words(&mut bytes, &REPLY)?;
    for words in row.3 {
        add_words(&mut bytes, words)?;
    }
    Ok(bytes)
}

// Serves the rows in one run. The host afterwards, where each has its reply.
fn answered(alloc: Global, rig: MemRig, rows: &[Row]) -> Result<Option<Host>, Fail> {
    let mut events = Vec::new(alloc);
    let mut replies = Vec::new(alloc);
    for row in rows {
        events.push(datagram(&datagram_of(alloc, *row)?))?;
        replies.push(reply_of(alloc, *row)?)?;
    }
    let (status, host) = served_all(alloc, rig, events)?;
    if status == 0 && has_sent_all(&host, &replies) {
        Ok(Some(host))
    } else {
        Ok(None)
    }
}

// READs past the worked WRITE: over both its sectors, at the end, and over the end.
const ROWS: [Row; 6] = [
    (WRITE, 1, &[0, 511, 0, 2, 0x58590000], &[&[0], &ATTRIBUTES]),
    (
        READ,
        1,
        &[510, 4, 0],
        &[&[0], &ATTRIBUTES, &[4, 0x61585961]],
    ),
    (READ, 1, &[1024, 4, 0], &[&[0], &ATTRIBUTES, &[0]]),
    (
        READ,
        1,
        &[1020, 8, 0],
        &[&[0], &ATTRIBUTES, &[4, 0x61616161]],
    ),
    (GETATTR, 2, &[], &[&[70]]),
    (GETATTR, 1, &[], &[&[0], &ATTRIBUTES]),
];

#[test]
fn what_was_written_is_read(rt: HostRuntime) -> Result<(), Fail> {
    let alloc = rt.alloc();
    assert!(rt; answered(alloc, rig(alloc, FRESH)?, &ROWS)?.is_some());
    Ok(())
}

// A file of 138 sectors of which three are held: 9 by its inode, 10 and 137 by its indirect block, sector 7. Once they are filled, 8 and 11 are
// held too.
fn long_file(filled: bool) -> Inode
    ensures { AddressesFit result }
{
    if filled {
        return Inode {
            size: 70656,
            direct: [0, 0, 0, 0, 0, 0, 0, 0, 9, 5],
            single: 7,
            mtime: 2000,
            ctime: 2000,
            ..file(FRESH)
        };
    }
    Inode {
        size: 70656,
        direct: [0, 0, 0, 0, 0, 0, 0, 0, 0, 5],
        single: 7,
        ..file(FRESH)
    }
}

// What is written to its sectors 9, 10, 11, 137 and 8.
fn fill(blocks: &mut [[u8; 512]; 6]) {
    blocks[0][511] = b'X';
    blocks[1][0] = b'Y';
    blocks[1][511] = b'X';
    blocks[2][4] = 10;
    blocks[3][510] = b'X';
    blocks[3][511] = b'Y';
    blocks[4][510] = b'X';
    blocks[4][511] = b'Y';
    blocks[5][0] = b'Y';
    blocks[5][1] = b'Y';
}

// The disk of that file, of bytes `a`, `b` and `c`, before the calls and after them.
fn long_disk(alloc: Global, filled: bool) -> Result<Vec<[u8; 512]>, Fail> {
    let mut addresses = [0; 512];
    addresses[0] = 6;
    addresses[508] = 8;
    let mut blocks = [
        [b'a'; 512],
        [b'b'; 512],
        addresses,
        [b'c'; 512],
        [0; 512],
        [0; 512],
    ];
    if filled {
        fill(&mut blocks);
    }
    Ok(sectors_of(alloc, 0, &long_file(filled), &blocks)?)
}

const LONG_BEFORE: [u32; 17] = [
    1, 0x81a4, 1, 0x64, 0x64, 0x11400, 0x200, 0, 138, 0, 3, 0x3e8, 0, 0x3e8, 0, 0x3e8, 0,
];

const LONG_AFTER: [u32; 17] = [
    1, 0x81a4, 1, 0x64, 0x64, 0x11400, 0x200, 0, 138, 0, 3, 0x3e8, 0, 0x7d0, 0, 0x7d0, 0,
];

// Sector 9 begins at byte 4,608, 10 at 5,120, 11 at 5,632 and 137 at 70,144.
const LONG_ROWS: [Row; 13] = [
    // a hole of the direct addresses, and where it ends
    (READ, 1, &[0, 4, 0], &[&[0], &LONG_BEFORE, &[4, 0]]),
    (
        READ,
        1,
        &[4606, 4, 0],
        &[&[0], &LONG_BEFORE, &[4, 0x00006161]],
    ),
    (WRITE, 1, &[0, 4606, 0, 2, 0x58590000], &[&[0], &LONG_AFTER]),
    (
        READ,
        1,
        &[4604, 8, 0],
        &[&[0], &LONG_AFTER, &[8, 0x00005859, 0x61616161]],
    ),
    // the last direct sector and the first of the indirect block
    (WRITE, 1, &[0, 5119, 0, 2, 0x58590000], &[&[0], &LONG_AFTER]),
    (
        READ,
        1,
        &[5118, 4, 0],
        &[&[0], &LONG_AFTER, &[4, 0x61585962]],
    ),
    // a hole of the indirect block, and the sector before it
    (WRITE, 1, &[0, 5632, 0, 2, 0x58590000], &[&[0], &LONG_AFTER]),
    (WRITE, 1, &[0, 5631, 0, 2, 0x58590000], &[&[0], &LONG_AFTER]),
    (
        READ,
        1,
        &[5630, 4, 0],
        &[&[0], &LONG_AFTER, &[4, 0x62585959]],
    ),
    // the last sector of the indirect block
    (
        READ,
        1,
        &[70142, 4, 0],
        &[&[0], &LONG_AFTER, &[4, 0x00006363]],
    ),
    (
        WRITE,
        1,
        &[0, 70654, 0, 2, 0x58590000],
        &[&[0], &LONG_AFTER],
    ),
    (
        READ,
        1,
        &[70652, 8, 0],
        &[&[0], &LONG_AFTER, &[4, 0x63635859]],
    ),
    (GETATTR, 1, &[], &[&[0], &LONG_AFTER]),
];

#[test]
fn a_long_file_is_reached_through_its_indirect_block(rt: HostRuntime) -> Result<(), Fail> {
    let alloc = rt.alloc();
    let rig = rig_with(alloc, long_disk(alloc, false)?);
    let Some(host) = answered(alloc, rig, &LONG_ROWS)? else {
        panic!(rt; "another reply");
    };
    let Some(rig) = rig_of(host) else {
        panic!(rt; "no rig came back");
    };
    assert!(rt; has_files(&rig, &long_disk(alloc, true)?, 11));
    Ok(())
}
