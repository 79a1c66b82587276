//! RENAME (RFC 1094 2.2.12), through datagrams.

use crate::tests::disks::pair_disk;
use server_runs::asking::{
    F, FILE, FILE_MADE, G, GETATTR, LOOKUP, READDIR, RENAME, ROOT, ROOT_CHANGED, ROOT_MADE, Row,
    STATFS, SUPERUSER, answered,
};
use server_runs::disks::linked_disk;
use server_runs::volumes::{has_files, rig, rig_with};
use std::test::Fail;
use volume_mem::{FRESH, test_volume};

/// The names `a` and `b`.
pub const A: [u32; 2] = [1, 0x61000000];

pub const B: [u32; 2] = [1, 0x62000000];

/// The handles of the directories `p` and `q` and of their files `a` and `b`, numbers 3 to 6.
pub const P: [u32; 8] = [0x56374e32, 0, 3, 1, 0, 0, 0, 0];

pub const Q: [u32; 8] = [0x56374e32, 0, 4, 1, 0, 0, 0, 0];

pub const FIFTH: [u32; 8] = [0x56374e32, 0, 5, 1, 0, 0, 0, 0];

pub const SIXTH: [u32; 8] = [0x56374e32, 0, 6, 1, 0, 0, 0, 0];

/// The attributes of file 5 with one link and with two, and of file 6.
pub const FIFTH_MADE: [u32; 17] = [
    1, 0x81a4, 1, 0, 0, 512, 0x200, 0, 1, 0, 5, 0x3e8, 0, 0x3e8, 0, 0x3e8, 0,
];

pub const FIFTH_OF_TWO: [u32; 17] = [
    1, 0x81a4, 2, 0, 0, 512, 0x200, 0, 1, 0, 5, 0x3e8, 0, 0x3e8, 0, 0x3e8, 0,
];

pub const SIXTH_MADE: [u32; 17] = [
    1, 0x81a4, 1, 0, 0, 512, 0x200, 0, 1, 0, 6, 0x3e8, 0, 0x3e8, 0, 0x3e8, 0,
];

/// The directories as they are made, and with names that were changed at second 2000.
pub const P_MADE: [u32; 17] = [
    2, 0x41ed, 2, 0, 0, 48, 0x200, 0, 1, 0, 3, 0x3e8, 0, 0x3e8, 0, 0x3e8, 0,
];

pub const Q_MADE: [u32; 17] = [
    2, 0x41ed, 2, 0, 0, 48, 0x200, 0, 1, 0, 4, 0x3e8, 0, 0x3e8, 0, 0x3e8, 0,
];

pub const P_CHANGED: [u32; 17] = [
    2, 0x41ed, 2, 0, 0, 48, 0x200, 0, 1, 0, 3, 0x3e8, 0, 0x7d0, 0, 0x7d0, 0,
];

pub const Q_CHANGED: [u32; 17] = [
    2, 0x41ed, 2, 0, 0, 48, 0x200, 0, 1, 0, 4, 0x3e8, 0, 0x7d0, 0, 0x7d0, 0,
];

// The slot of `a` is empty, and that of `b` names file 5; file 6 is gone.
const REPLACED: [Row; 8] = [
    (RENAME, P, &[&A, &Q, &B], &[&[0]]),
    (LOOKUP, P, &[&A], &[&[2]]),
    (LOOKUP, Q, &[&B], &[&[0], &FIFTH, &FIFTH_MADE]),
    (GETATTR, SIXTH, &[], &[&[70]]),
    (GETATTR, P, &[], &[&[0], &P_CHANGED]),
    (GETATTR, Q, &[], &[&[0], &Q_CHANGED]),
    (
        READDIR,
        P,
        &[&[0, 512]],
        &[&[0, 1, 3, 1, 0x2e000000, 1, 1, 2, 2, 0x2e2e0000, 2, 0, 1]],
    ),
    (STATFS, ROOT, &[], &[&[0, 8192, 512, 60, 56, 56]]),
];

#[test]
fn a_file_moves_over_another_one(rt: HostRuntime) -> Result<(), Fail> {
    let alloc = rt.alloc();
    let rig = rig_with(alloc, pair_disk(alloc)?);
    let Some(rig) = answered(alloc, rig, &SUPERUSER, &REPLACED)? else {
        panic!(rt; "another reply");
    };
    // all but the call itself is so after a crash
    let Some((_, rest)) = REPLACED.split_first() else {
        panic!(rt; "there are no rows");
    };
    assert!(rt; answered(alloc, rig.crash(true, 0), &SUPERUSER, rest)?.is_some());
    Ok(())
}

// In the root, of `f` to itself; the second volume has `g` as well, a name of the same file.
const TO_ITSELF: [Row; 2] = [
    (RENAME, ROOT, &[&F, &ROOT, &F], &[&[0]]),
    (GETATTR, ROOT, &[], &[&[0], &ROOT_MADE]),
];

const TO_THE_SAME: [Row; 2] = [
    (RENAME, ROOT, &[&F, &ROOT, &G], &[&[0]]),
    (RENAME, ROOT, &[&G, &ROOT, &F], &[&[0]]),
];

#[test]
fn nothing_is_put_where_both_names_are_of_one_file(rt: HostRuntime) -> Result<(), Fail> {
    let alloc = rt.alloc();
    let Some(same) = answered(alloc, rig(alloc, FRESH)?, &SUPERUSER, &TO_ITSELF)? else {
        panic!(rt; "another reply");
    };
    assert!(rt; has_files(&same, &test_volume(alloc, FRESH)?, 7));
    let linked = rig_with(alloc, linked_disk(alloc)?);
    let Some(same) = answered(alloc, linked, &SUPERUSER, &TO_THE_SAME)? else {
        panic!(rt; "another reply");
    };
    assert!(rt; has_files(&same, &linked_disk(alloc)?, 7));
    Ok(())
}

// The slot of `f` gets another name, and the file keeps its times.
const ANOTHER_NAME: [Row; 4] = [
    (RENAME, ROOT, &[&F, &ROOT, &G], &[&[0]]),
    (LOOKUP, ROOT, &[&F], &[&[2]]),
    (LOOKUP, ROOT, &[&G], &[&[0], &FILE, &FILE_MADE]),
    (GETATTR, ROOT, &[], &[&[0], &ROOT_CHANGED]),
];

#[test]
fn a_name_changes_in_its_slot(rt: HostRuntime) -> Result<(), Fail> {
    let alloc = rt.alloc();
    assert!(rt; answered(alloc, rig(alloc, FRESH)?, &SUPERUSER, &ANOTHER_NAME)?.is_some());
    Ok(())
}
