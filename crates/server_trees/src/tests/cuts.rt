//! Each device call of a MKDIR, an RMDIR, a RENAME that replaces, and a RENAME in a directory that grows, fails or is cut; then the rig crashes and is
//! served again.

use crate::tests::disks::{full_directory_disk, pair_disk, spare_disk};
use crate::tests::moves::{
    A, B, FIFTH, FIFTH_MADE, FIFTH_OF_TWO, P, P_CHANGED, P_MADE, Q, Q_CHANGED, Q_MADE, SIXTH,
    SIXTH_MADE,
};
use server_runs::asking::{
    F, FILE, FOURTH, G, GETATTR, LOOKUP, MKDIR, READDIR, RENAME, RMDIR, ROOT, ROOT_CHANGED,
    ROOT_MADE, Row, STATFS, UNSET,
};
use server_runs::cuts::broken;
use server_runs::disks::nested_disk;
use std::alloc::Global;
use std::test::Fail;

// Whether the volume of this disk has, where each device call of the call fails or is cut, what so many puts leave.
fn holds(
    alloc: Global,
    disk: &[[u8; 512]],
    call: Row,
    after: &[&'static [Row]],
) -> Result<bool, Fail> {
    for cuts in [false, true] {
        if broken(alloc, disk, call, after, cuts)?.is_some() {
            return Ok(false);
        }
    }
    Ok(true)
}

// ---- MKDIR

// The name `d`, directory 4 as it is made, and of the second generation.
const D: [u32; 2] = [1, 0x64000000];

const DIRECTORY: [u32; 17] = [
    2, 0x41ff, 2, 0, 0, 32, 0x200, 0, 1, 0, 4, 0x7d0, 0, 0x7d0, 0, 0x7d0, 0,
];

const FOURTH_AGAIN: [u32; 8] = [0x56374e32, 0, 4, 2, 0, 0, 0, 0];

// The root of four slots, with a directory more, and with new times too.
const ROOT_BEFORE: [u32; 17] = [
    2, 0x41ed, 2, 0, 0, 64, 0x200, 0, 1, 0, 2, 0x3e8, 0, 0x3e8, 0, 0x3e8, 0,
];

const ROOT_WITH_ONE: [u32; 17] = [
    2, 0x41ed, 3, 0, 0, 64, 0x200, 0, 1, 0, 2, 0x3e8, 0, 0x3e8, 0, 0x3e8, 0,
];

const ROOT_AFTER: [u32; 17] = [
    2, 0x41ed, 3, 0, 0, 64, 0x200, 0, 1, 0, 2, 0x3e8, 0, 0x7d0, 0, 0x7d0, 0,
];

const NOT_MADE: [Row; 5] = [
    (LOOKUP, ROOT, &[&D], &[&[2]]),
    (GETATTR, ROOT, &[], &[&[0], &ROOT_BEFORE]),
    (STATFS, ROOT, &[], &[&[0, 8192, 512, 60, 57, 57]]),
    (MKDIR, ROOT, &[&D, &UNSET], &[&[0], &FOURTH, &DIRECTORY]),
    (STATFS, ROOT, &[], &[&[0, 8192, 512, 60, 56, 56]]),
];

// The generation of number 4 alone has risen.
const RAISED: [Row; 5] = [
    (LOOKUP, ROOT, &[&D], &[&[2]]),
    (GETATTR, ROOT, &[], &[&[0], &ROOT_BEFORE]),
    (STATFS, ROOT, &[], &[&[0, 8192, 512, 60, 57, 57]]),
    (GETATTR, FOURTH, &[], &[&[70]]),
    (
        MKDIR,
        ROOT,
        &[&D, &UNSET],
        &[&[0], &FOURTH_AGAIN, &DIRECTORY],
    ),
];

// The directory is there, and the root's times are the old ones.
const NAMED: [Row; 4] = [
    (LOOKUP, ROOT, &[&D], &[&[0], &FOURTH, &DIRECTORY]),
    (GETATTR, ROOT, &[], &[&[0], &ROOT_WITH_ONE]),
    (STATFS, ROOT, &[], &[&[0, 8192, 512, 60, 56, 56]]),
    (MKDIR, ROOT, &[&D, &UNSET], &[&[17]]),
];

const MADE: [Row; 4] = [
    (LOOKUP, ROOT, &[&D], &[&[0], &FOURTH, &DIRECTORY]),
    (GETATTR, ROOT, &[], &[&[0], &ROOT_AFTER]),
    (STATFS, ROOT, &[], &[&[0, 8192, 512, 60, 56, 56]]),
    (
        READDIR,
        FOURTH,
        &[&[0, 512]],
        &[&[0, 1, 4, 1, 0x2e000000, 1, 1, 2, 2, 0x2e2e0000, 2, 0, 1]],
    ),
];

// The new directory's sector is put, its inode, the slot, and the root's inode.
const MKDIR_FAILS: Row = (MKDIR, ROOT, &[&D, &UNSET], &[&[5]]);

const MADE_AFTER: [&[Row]; 5] = [&NOT_MADE, &NOT_MADE, &RAISED, &NAMED, &MADE];

#[test]
fn a_new_directory_is_there_or_its_generation_alone(rt: HostRuntime) -> Result<(), Fail> {
    let alloc = rt.alloc();
    assert!(rt; holds(alloc, &spare_disk(alloc)?, MKDIR_FAILS, &MADE_AFTER)?);
    Ok(())
}

// ---- RMDIR

// Directory 3 of user 100, and of the second generation as user 0 makes it; the root with it.
const NESTED: [u32; 17] = [
    2, 0x41ed, 2, 0x64, 0x64, 32, 0x200, 0, 1, 0, 3, 0x3e8, 0, 0x3e8, 0, 0x3e8, 0,
];

const SECOND: [u32; 8] = [0x56374e32, 0, 3, 2, 0, 0, 0, 0];

const SECOND_MADE: [u32; 17] = [
    2, 0x41ff, 2, 0, 0, 32, 0x200, 0, 1, 0, 3, 0x7d0, 0, 0x7d0, 0, 0x7d0, 0,
];

const ROOT_OF_NESTED: [u32; 17] = [
    2, 0x41ed, 3, 0, 0, 48, 0x200, 0, 1, 0, 2, 0x3e8, 0, 0x3e8, 0, 0x3e8, 0,
];

const STANDING: [Row; 5] = [
    (LOOKUP, ROOT, &[&F], &[&[0], &FILE, &NESTED]),
    (GETATTR, ROOT, &[], &[&[0], &ROOT_OF_NESTED]),
    (STATFS, ROOT, &[], &[&[0, 8192, 512, 60, 58, 58]]),
    (RMDIR, ROOT, &[&F], &[&[0]]),
    (GETATTR, FILE, &[], &[&[70]]),
];

// The directory is gone, the root has a link less, and its times are the old ones.
const UNNAMED: [Row; 5] = [
    (LOOKUP, ROOT, &[&F], &[&[2]]),
    (GETATTR, FILE, &[], &[&[70]]),
    (GETATTR, ROOT, &[], &[&[0], &ROOT_MADE]),
    (STATFS, ROOT, &[], &[&[0, 8192, 512, 60, 59, 59]]),
    (MKDIR, ROOT, &[&F, &UNSET], &[&[0], &SECOND, &SECOND_MADE]),
];

const TAKEN_AWAY: [Row; 5] = [
    (LOOKUP, ROOT, &[&F], &[&[2]]),
    (GETATTR, FILE, &[], &[&[70]]),
    (GETATTR, ROOT, &[], &[&[0], &ROOT_CHANGED]),
    (STATFS, ROOT, &[], &[&[0, 8192, 512, 60, 59, 59]]),
    (MKDIR, ROOT, &[&F, &UNSET], &[&[0], &SECOND, &SECOND_MADE]),
];

// The slot is put, and then the inodes of the root and the directory, which stand in one sector.
const RMDIR_FAILS: Row = (RMDIR, ROOT, &[&F], &[&[5]]);

const TAKEN_AFTER: [&[Row]; 3] = [&STANDING, &UNNAMED, &TAKEN_AWAY];

#[test]
fn a_directory_is_gone_but_for_times_or_stands(rt: HostRuntime) -> Result<(), Fail> {
    let alloc = rt.alloc();
    assert!(rt; holds(alloc, &nested_disk(alloc)?, RMDIR_FAILS, &TAKEN_AFTER)?);
    Ok(())
}

// ---- a RENAME that replaces

const BEFORE: [Row; 7] = [
    (LOOKUP, P, &[&A], &[&[0], &FIFTH, &FIFTH_MADE]),
    (LOOKUP, Q, &[&B], &[&[0], &SIXTH, &SIXTH_MADE]),
    (GETATTR, P, &[], &[&[0], &P_MADE]),
    (GETATTR, Q, &[], &[&[0], &Q_MADE]),
    (STATFS, ROOT, &[], &[&[0, 8192, 512, 60, 55, 55]]),
    (RENAME, P, &[&A, &Q, &B], &[&[0]]),
    (GETATTR, SIXTH, &[], &[&[70]]),
];

// Both names are of file 5, and file 6 is gone.
const BOTH: [Row; 7] = [
    (LOOKUP, P, &[&A], &[&[0], &FIFTH, &FIFTH_OF_TWO]),
    (LOOKUP, Q, &[&B], &[&[0], &FIFTH, &FIFTH_OF_TWO]),
    (GETATTR, SIXTH, &[], &[&[70]]),
    (GETATTR, P, &[], &[&[0], &P_MADE]),
    (GETATTR, Q, &[], &[&[0], &Q_MADE]),
    (STATFS, ROOT, &[], &[&[0, 8192, 512, 60, 56, 56]]),
    (RENAME, P, &[&A, &Q, &B], &[&[0]]),
];

const WITH_OLD_TIMES: [Row; 6] = [
    (LOOKUP, P, &[&A], &[&[2]]),
    (LOOKUP, Q, &[&B], &[&[0], &FIFTH, &FIFTH_MADE]),
    (GETATTR, SIXTH, &[], &[&[70]]),
    (GETATTR, P, &[], &[&[0], &P_MADE]),
    (GETATTR, Q, &[], &[&[0], &Q_MADE]),
    (STATFS, ROOT, &[], &[&[0, 8192, 512, 60, 56, 56]]),
];

const AFTER: [Row; 6] = [
    (LOOKUP, P, &[&A], &[&[2]]),
    (LOOKUP, Q, &[&B], &[&[0], &FIFTH, &FIFTH_MADE]),
    (GETATTR, SIXTH, &[], &[&[70]]),
    (GETATTR, P, &[], &[&[0], &P_CHANGED]),
    (GETATTR, Q, &[], &[&[0], &Q_CHANGED]),
    (STATFS, ROOT, &[], &[&[0, 8192, 512, 60, 56, 56]]),
];

// The slot of `b` is put, that of `a`, and the sector of all inodes.
const REPLACING_FAILS: Row = (RENAME, P, &[&A, &Q, &B], &[&[5]]);

const REPLACED_AFTER: [&[Row]; 4] = [&BEFORE, &BOTH, &WITH_OLD_TIMES, &AFTER];

#[test]
fn a_moved_file_has_its_old_name_both_or_the_new_one(rt: HostRuntime) -> Result<(), Fail> {
    let alloc = rt.alloc();
    assert!(rt; holds(alloc, &pair_disk(alloc)?, REPLACING_FAILS, &REPLACED_AFTER)?);
    Ok(())
}

// ---- a RENAME in a directory that grows

// File 4 of 31 links and of 32; directory 3 of 32 slots, and of 33 at second 2000; the root, and at second 2000.
const FILE_OF_31: [u32; 17] = [
    1, 0x81a4, 31, 0, 0, 512, 0x200, 0, 1, 0, 4, 0x3e8, 0, 0x3e8, 0, 0x3e8, 0,
];

const FILE_OF_32: [u32; 17] = [
    1, 0x81a4, 32, 0, 0, 512, 0x200, 0, 1, 0, 4, 0x3e8, 0, 0x3e8, 0, 0x3e8, 0,
];

const FULL: [u32; 17] = [
    2, 0x41ed, 2, 0, 0, 512, 0x200, 0, 1, 0, 3, 0x3e8, 0, 0x3e8, 0, 0x3e8, 0,
];

const LONGER: [u32; 17] = [
    2, 0x41ed, 2, 0, 0, 528, 0x200, 0, 2, 0, 3, 0x3e8, 0, 0x7d0, 0, 0x7d0, 0,
];

const NOT_GROWN: [Row; 5] = [
    (LOOKUP, ROOT, &[&F], &[&[0], &FOURTH, &FILE_OF_31]),
    (LOOKUP, P, &[&G], &[&[2]]),
    (GETATTR, P, &[], &[&[0], &FULL]),
    (STATFS, ROOT, &[], &[&[0, 8192, 512, 60, 57, 57]]),
    (RENAME, ROOT, &[&F, &P, &G], &[&[0]]),
];

// Of the directory's times either are right, and of the root's the old ones.
const WITH_BOTH: [Row; 4] = [
    (LOOKUP, ROOT, &[&F], &[&[0], &FOURTH, &FILE_OF_32]),
    (LOOKUP, P, &[&G], &[&[0], &FOURTH, &FILE_OF_32]),
    (GETATTR, ROOT, &[], &[&[0], &ROOT_WITH_ONE]),
    (STATFS, ROOT, &[], &[&[0, 8192, 512, 60, 56, 56]]),
];

const WITHOUT_OLD: [Row; 4] = [
    (LOOKUP, ROOT, &[&F], &[&[2]]),
    (LOOKUP, P, &[&G], &[&[0], &FOURTH, &FILE_OF_31]),
    (GETATTR, ROOT, &[], &[&[0], &ROOT_WITH_ONE]),
    (STATFS, ROOT, &[], &[&[0, 8192, 512, 60, 56, 56]]),
];

const GROWN: [Row; 5] = [
    (LOOKUP, ROOT, &[&F], &[&[2]]),
    (LOOKUP, P, &[&G], &[&[0], &FOURTH, &FILE_OF_31]),
    (GETATTR, ROOT, &[], &[&[0], &ROOT_AFTER]),
    (GETATTR, P, &[], &[&[0], &LONGER]),
    (STATFS, ROOT, &[], &[&[0, 8192, 512, 60, 56, 56]]),
];

// The slot in a new sector is put, the inode of its directory, the old slot, and the sector of all inodes.
const GROWING_FAILS: Row = (RENAME, ROOT, &[&F, &P, &G], &[&[5]]);

const GROWN_AFTER: [&[Row]; 5] = [&NOT_GROWN, &NOT_GROWN, &WITH_BOTH, &WITHOUT_OLD, &GROWN];

#[test]
fn a_file_is_moved_into_a_directory_that_grows(rt: HostRuntime) -> Result<(), Fail> {
    let alloc = rt.alloc();
    assert!(rt;
        holds(
            alloc,
            &full_directory_disk(alloc)?,
            GROWING_FAILS,
            &GROWN_AFTER
        )?
    );
    Ok(())
}
