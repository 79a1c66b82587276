//! A tree that is made, listed, moved and taken away, through datagrams.

use crate::tests::moves::{A, FIFTH, SIXTH};
use server_runs::asking::{
    CREATE, F, FOURTH, G, GETATTR, LINK, LOOKUP, MKDIR, READDIR, READLINK, REMOVE, RENAME, RMDIR,
    ROOT, Row, STATFS, SUPERUSER, SYMLINK, UNSET, answered,
};
use server_runs::volumes::rig;
use server_runs::worked::CREDENTIAL;
use std::test::Fail;
use volume_mem::FRESH;

// The names `d`, `e`, `h` and `l`, and the text `abc`.
const D: [u32; 2] = [1, 0x64000000];

const E: [u32; 2] = [1, 0x65000000];

const H: [u32; 2] = [1, 0x68000000];

const L: [u32; 2] = [1, 0x6c000000];

const ABC: [u32; 2] = [3, 0x61626300];

// Directory 4, file 5 with one link and with two, and link 6, all of user 0 and second 2000; the root with a directory in it.
const DIRECTORY: [u32; 17] = [
    2, 0x41ff, 2, 0, 0, 32, 0x200, 0, 1, 0, 4, 0x7d0, 0, 0x7d0, 0, 0x7d0, 0,
];

const FILE_OF_ONE: [u32; 17] = [
    1, 0x81b6, 1, 0, 0, 0, 0x200, 0, 0, 0, 5, 0x7d0, 0, 0x7d0, 0, 0x7d0, 0,
];

const FILE_OF_TWO: [u32; 17] = [
    1, 0x81b6, 2, 0, 0, 0, 0x200, 0, 0, 0, 5, 0x7d0, 0, 0x7d0, 0, 0x7d0, 0,
];

const LINK_MADE: [u32; 17] = [
    5, 0xa1ff, 1, 0, 0, 3, 0x200, 0, 1, 0, 6, 0x7d0, 0, 0x7d0, 0, 0x7d0, 0,
];

const ROOT_OF_THREE: [u32; 17] = [
    2, 0x41ed, 3, 0, 0, 64, 0x200, 0, 1, 0, 2, 0x3e8, 0, 0x7d0, 0, 0x7d0, 0,
];

const MADE: [Row; 8] = [
    (MKDIR, ROOT, &[&D, &UNSET], &[&[0], &FOURTH, &DIRECTORY]),
    (GETATTR, ROOT, &[], &[&[0], &ROOT_OF_THREE]),
    (CREATE, FOURTH, &[&A, &UNSET], &[&[0], &FIFTH, &FILE_OF_ONE]),
    (LINK, FIFTH, &[&ROOT, &G], &[&[0]]),
    (GETATTR, FIFTH, &[], &[&[0], &FILE_OF_TWO]),
    (SYMLINK, FOURTH, &[&L, &ABC, &UNSET], &[&[0]]),
    (LOOKUP, FOURTH, &[&L], &[&[0], &SIXTH, &LINK_MADE]),
    (READLINK, SIXTH, &[], &[&[0], &ABC]),
];

// Entries of the root and of directory 4: a number, a name, and the number of the slot past it.
const DOT: [u32; 5] = [1, 2, 1, 0x2e000000, 1];

const DOTS: [u32; 5] = [1, 2, 2, 0x2e2e0000, 2];

const NAMED_F: [u32; 5] = [1, 3, 1, 0x66000000, 3];

const NAMED_D: [u32; 5] = [1, 4, 1, 0x64000000, 4];

const NAMED_E: [u32; 5] = [1, 4, 1, 0x65000000, 4];

const NAMED_G: [u32; 5] = [1, 5, 1, 0x67000000, 5];

const NAMED_H: [u32; 5] = [1, 5, 1, 0x68000000, 6];

const DOT_OF_FOUR: [u32; 5] = [1, 4, 1, 0x2e000000, 1];

const NAMED_L: [u32; 5] = [1, 6, 1, 0x6c000000, 4];

const MOVED: [Row; 4] = [
    (RMDIR, ROOT, &[&D], &[&[66]]),
    (RENAME, FOURTH, &[&A, &ROOT, &H], &[&[0]]),
    (
        READDIR,
        FOURTH,
        &[&[0, 512]],
        &[&[0], &DOT_OF_FOUR, &DOTS, &NAMED_L, &[0, 1]],
    ),
    (
        READDIR,
        ROOT,
        &[&[0, 512]],
        &[
            &[0],
            &DOT,
            &DOTS,
            &NAMED_F,
            &NAMED_D,
            &NAMED_G,
            &NAMED_H,
            &[0, 1],
        ],
    ),
];

// Number 4 is taken again, and so is the slot of `d`.
const FOURTH_AGAIN: [u32; 8] = [0x56374e32, 0, 4, 2, 0, 0, 0, 0];

const TAKEN_AWAY: [Row; 5] = [
    (REMOVE, FOURTH, &[&L], &[&[0]]),
    (RMDIR, ROOT, &[&D], &[&[0]]),
    (GETATTR, FOURTH, &[], &[&[70]]),
    (STATFS, ROOT, &[], &[&[0, 8192, 512, 60, 57, 57]]),
    (
        MKDIR,
        ROOT,
        &[&E, &UNSET],
        &[&[0], &FOURTH_AGAIN, &DIRECTORY],
    ),
];

// By user 100, who may write in directory 4.
const SIXTH_AGAIN: [u32; 8] = [0x56374e32, 0, 6, 2, 0, 0, 0, 0];

const OWN_DIRECTORY: [u32; 17] = [
    2, 0x41ff, 2, 0x64, 0x64, 32, 0x200, 0, 1, 0, 6, 0x7d0, 0, 0x7d0, 0, 0x7d0, 0,
];

const KEPT: [Row; 4] = [
    (
        READDIR,
        ROOT,
        &[&[2, 512]],
        &[&[0], &NAMED_F, &NAMED_E, &NAMED_G, &NAMED_H, &[0, 1]],
    ),
    (LOOKUP, ROOT, &[&H], &[&[0], &FIFTH, &FILE_OF_TWO]),
    (
        MKDIR,
        FOURTH_AGAIN,
        &[&D, &UNSET],
        &[&[0], &SIXTH_AGAIN, &OWN_DIRECTORY],
    ),
    (RENAME, FOURTH_AGAIN, &[&D, &FOURTH_AGAIN, &F], &[&[0]]),
];

#[test]
fn a_tree_is_made_moved_and_taken_away(rt: HostRuntime) -> Result<(), Fail> {
    let alloc = rt.alloc();
    let mut rig = rig(alloc, FRESH)?;
    for rows in [MADE.as_slice(), &MOVED, &TAKEN_AWAY] {
        let Some(next) = answered(alloc, rig, &SUPERUSER, rows)? else {
            panic!(rt; "another reply");
        };
        rig = next;
    }
    assert!(rt; answered(alloc, rig.crash(true, 0), &CREDENTIAL, &KEPT)?.is_some());
    Ok(())
}

// Of the most bytes that a link has, in two blocks.
const LONG_LINK: [Row; 3] = [
    (
        SYMLINK,
        ROOT,
        &[&L, &[1024], &[0x61616161; 256], &UNSET],
        &[&[0]],
    ),
    (READLINK, FOURTH, &[], &[&[0, 1024], &[0x61616161; 256]]),
    (STATFS, ROOT, &[], &[&[0, 8192, 512, 60, 55, 55]]),
];

#[test]
fn a_link_of_1024_bytes_is_made_and_read(rt: HostRuntime) -> Result<(), Fail> {
    let alloc = rt.alloc();
    assert!(rt; answered(alloc, rig(alloc, FRESH)?, &SUPERUSER, &LONG_LINK)?.is_some());
    Ok(())
}
