//! Calls on trees that are refused, through datagrams.

use crate::tests::disks::pair_disk;
use crate::tests::moves::{A, B, FIFTH, P, Q};
use server_runs::asking::{
    F, FILE, LINK, LOOKUP, MKDIR, OLD_ROOT, READLINK, REMOVE, RENAME, RMDIR, ROOT, Row, STATFS,
    SUPERUSER, SYMLINK, UNSET, answered,
};
use server_runs::disks::full_disk;
use server_runs::volumes::{has_files, rig, rig_with};
use server_runs::worked::CREDENTIAL;
use std::test::Fail;
use volume_mem::{FRESH, Shape};

// The names `p`, `q`, `x`, `.` and `..`, and one of 15 bytes.
const P_NAME: [u32; 2] = [1, 0x70000000];

const Q_NAME: [u32; 2] = [1, 0x71000000];

const X: [u32; 2] = [1, 0x78000000];

const DOT: [u32; 2] = [1, 0x2e000000];

const DOTS: [u32; 2] = [2, 0x2e2e0000];

const FIFTEEN: [u32; 5] = [15, 0x66696674, 0x65656e20, 0x62797465, 0x732e2e00];

const MAKING: [Row; 10] = [
    (MKDIR, OLD_ROOT, &[&X, &UNSET], &[&[70]]),
    (MKDIR, FIFTH, &[&DOTS, &UNSET], &[&[20]]),
    (MKDIR, ROOT, &[&DOTS, &UNSET], &[&[13]]),
    (MKDIR, ROOT, &[&FIFTEEN, &UNSET], &[&[63]]),
    (MKDIR, ROOT, &[&P_NAME, &UNSET], &[&[17]]),
    (SYMLINK, FIFTH, &[&X, &[0], &UNSET], &[&[20]]),
    (SYMLINK, P, &[&A, &[0], &UNSET], &[&[17]]),
    (LINK, P, &[&FIFTH, &X], &[&[21]]),
    (LINK, FIFTH, &[&FIFTH, &X], &[&[20]]),
    (LINK, FIFTH, &[&Q, &B], &[&[17]]),
];

const TAKING_AWAY: [Row; 7] = [
    (RMDIR, FIFTH, &[&DOT], &[&[20]]),
    (RMDIR, ROOT, &[&DOT], &[&[13]]),
    (RMDIR, ROOT, &[&X], &[&[2]]),
    (RMDIR, P, &[&A], &[&[20]]),
    (RMDIR, ROOT, &[&P_NAME], &[&[66]]),
    (REMOVE, ROOT, &[&P_NAME], &[&[21]]),
    (READLINK, FIFTH, &[], &[&[6]]),
];

// A name that stands is told before another parent of a directory.
const MOVING: [Row; 8] = [
    (RENAME, P, &[&A, &OLD_ROOT, &B], &[&[70]]),
    (RENAME, P, &[&A, &FIFTH, &B], &[&[20]]),
    (RENAME, P, &[&DOT, &Q, &B], &[&[13]]),
    (RENAME, P, &[&X, &Q, &FIFTEEN], &[&[63]]),
    (RENAME, P, &[&X, &Q, &B], &[&[2]]),
    (RENAME, ROOT, &[&P_NAME, &Q, &B], &[&[17]]),
    (RENAME, ROOT, &[&P_NAME, &Q, &X], &[&[1]]),
    (RENAME, P, &[&A, &ROOT, &Q_NAME], &[&[21]]),
];

// Of user 100, whom the directories don't let write; that a directory isn't empty is told before.
const SHUT_OUT: [Row; 5] = [
    (MKDIR, ROOT, &[&X, &UNSET], &[&[13]]),
    (SYMLINK, ROOT, &[&X, &[0], &UNSET], &[&[13]]),
    (LINK, FIFTH, &[&ROOT, &X], &[&[13]]),
    (RMDIR, ROOT, &[&P_NAME], &[&[66]]),
    (RENAME, P, &[&A, &Q, &B], &[&[13]]),
];

#[test]
fn what_is_refused_changes_nothing(rt: HostRuntime) -> Result<(), Fail> {
    let alloc = rt.alloc();
    let mut rig = rig_with(alloc, pair_disk(alloc)?);
    for (user, rows) in [
        (&SUPERUSER, MAKING.as_slice()),
        (&SUPERUSER, &TAKING_AWAY),
        (&SUPERUSER, &MOVING),
        (&CREDENTIAL, &SHUT_OUT),
    ] {
        let Some(same) = answered(alloc, rig, user, rows)? else {
            panic!(rt; "another reply");
        };
        rig = same;
    }
    assert!(rt; has_files(&rig, &pair_disk(alloc)?, 9));
    Ok(())
}

const READ_ONLY: Shape = Shape {
    read_only: 1,
    ..FRESH
};

// A read-only volume is told before all that is asked of the names.
const UNWRITABLE: [Row; 6] = [
    (MKDIR, FILE, &[&DOTS, &UNSET], &[&[30]]),
    (SYMLINK, FILE, &[&DOTS, &[0], &UNSET], &[&[30]]),
    (LINK, ROOT, &[&FILE, &DOTS], &[&[30]]),
    (RMDIR, FILE, &[&DOTS], &[&[30]]),
    (RENAME, FILE, &[&DOTS, &FILE, &DOTS], &[&[30]]),
    (RENAME, FILE, &[&DOTS, &OLD_ROOT, &DOTS], &[&[70]]),
];

#[test]
fn nothing_is_made_on_a_volume_that_is_read_only(rt: HostRuntime) -> Result<(), Fail> {
    let alloc = rt.alloc();
    assert!(rt; answered(alloc, rig(alloc, READ_ONLY)?, &SUPERUSER, &UNWRITABLE)?.is_some());
    Ok(())
}

// The root's sector is full, and one block is free: a directory or a link with text takes another one, and a name alone that one.
const LAST_BLOCK: [Row; 6] = [
    (MKDIR, ROOT, &[&X, &UNSET], &[&[28]]),
    (SYMLINK, ROOT, &[&X, &F, &UNSET], &[&[28]]),
    (LOOKUP, ROOT, &[&X], &[&[2]]),
    (STATFS, ROOT, &[], &[&[0, 8192, 512, 4, 1, 1]]),
    (LINK, FILE, &[&ROOT, &X], &[&[0]]),
    (STATFS, ROOT, &[], &[&[0, 8192, 512, 4, 0, 0]]),
];

#[test]
fn what_takes_more_blocks_than_are_free_is_not_made(rt: HostRuntime) -> Result<(), Fail> {
    let alloc = rt.alloc();
    let rig = rig_with(alloc, full_disk(alloc, 8)?);
    assert!(rt; answered(alloc, rig, &SUPERUSER, &LAST_BLOCK)?.is_some());
    Ok(())
}
