//! Each device call of a CREATE in a directory that grows, and of a REMOVE, fails or is cut; then the rig crashes and is served again.

use server_runs::asking::{
    CREATE, F, FILE, FILE_MADE, FOURTH, FOURTH_MADE, GETATTR, LOOKUP, REMOVE, ROOT, ROOT_CHANGED,
    ROOT_MADE, Row, STATFS, UNSET,
};
use server_runs::cuts::broken;
use server_runs::disks::full_disk;
use std::test::Fail;
use volume_mem::{FRESH, test_volume};

// ---- what is there after so many puts

// The name `x`; the root of 32 slots and of 33; file 4 of the second generation.
const X: [u32; 2] = [1, 0x78000000];

const FULL: [u32; 17] = [
    2, 0x41ed, 2, 0, 0, 512, 0x200, 0, 1, 0, 2, 0x3e8, 0, 0x3e8, 0, 0x3e8, 0,
];

const LONGER: [u32; 17] = [
    2, 0x41ed, 2, 0, 0, 528, 0x200, 0, 2, 0, 2, 0x3e8, 0, 0x7d0, 0, 0x7d0, 0,
];

const FOURTH_AGAIN: [u32; 8] = [0x56374e32, 0, 4, 2, 0, 0, 0, 0];

const NOT_CREATED: [Row; 6] = [
    (LOOKUP, ROOT, &[&X], &[&[2]]),
    (GETATTR, ROOT, &[], &[&[0], &FULL]),
    (STATFS, ROOT, &[], &[&[0, 8192, 512, 4, 1, 1]]),
    (CREATE, ROOT, &[&X, &UNSET], &[&[0], &FOURTH, &FOURTH_MADE]),
    (GETATTR, ROOT, &[], &[&[0], &LONGER]),
    (STATFS, ROOT, &[], &[&[0, 8192, 512, 4, 0, 0]]),
];

// The generation of number 4 alone has risen.
const RAISED: [Row; 7] = [
    (LOOKUP, ROOT, &[&X], &[&[2]]),
    (GETATTR, ROOT, &[], &[&[0], &FULL]),
    (STATFS, ROOT, &[], &[&[0, 8192, 512, 4, 1, 1]]),
    (GETATTR, FOURTH, &[], &[&[70]]),
    (
        CREATE,
        ROOT,
        &[&X, &UNSET],
        &[&[0], &FOURTH_AGAIN, &FOURTH_MADE],
    ),
    (GETATTR, ROOT, &[], &[&[0], &LONGER]),
    (STATFS, ROOT, &[], &[&[0, 8192, 512, 4, 0, 0]]),
];

const CREATED: [Row; 4] = [
    (LOOKUP, ROOT, &[&X], &[&[0], &FOURTH, &FOURTH_MADE]),
    (GETATTR, ROOT, &[], &[&[0], &LONGER]),
    (STATFS, ROOT, &[], &[&[0, 8192, 512, 4, 0, 0]]),
    (CREATE, ROOT, &[&X, &UNSET], &[&[0], &FOURTH, &FOURTH_MADE]),
];

// A CREATE of `x` in the root, whose 32 slots are in use, where one block is free. The inode of file 4 is put, then the slot in a new sector, and
// then the inode of the root.
const CREATE_FAILS: Row = (CREATE, ROOT, &[&X, &UNSET], &[&[5]]);

const CREATED_AFTER: [&[Row]; 4] = [&NOT_CREATED, &RAISED, &RAISED, &CREATED];

#[test]
fn a_creation_leaves_all_or_the_generation_alone(rt: HostRuntime) -> Result<(), Fail> {
    let alloc = rt.alloc();
    let disk = full_disk(alloc, 8)?;
    for cuts in [false, true] {
        assert_eq!(rt;
            broken(alloc, &disk, CREATE_FAILS, &CREATED_AFTER, cuts)?,
            None
        );
    }
    Ok(())
}

// File 3 of the second generation.
const SECOND: [u32; 8] = [0x56374e32, 0, 3, 2, 0, 0, 0, 0];

const SECOND_MADE: [u32; 17] = [
    1, 0x81b6, 1, 0, 0, 0, 0x200, 0, 0, 0, 3, 0x7d0, 0, 0x7d0, 0, 0x7d0, 0,
];

const NOT_REMOVED: [Row; 5] = [
    (LOOKUP, ROOT, &[&F], &[&[0], &FILE, &FILE_MADE]),
    (GETATTR, ROOT, &[], &[&[0], &ROOT_MADE]),
    (STATFS, ROOT, &[], &[&[0, 8192, 512, 60, 57, 57]]),
    (REMOVE, ROOT, &[&F], &[&[0]]),
    (CREATE, ROOT, &[&F, &UNSET], &[&[0], &SECOND, &SECOND_MADE]),
];

// The name and the file are gone, and the root's times are the old ones.
const EMPTIED: [Row; 6] = [
    (LOOKUP, ROOT, &[&F], &[&[2]]),
    (GETATTR, FILE, &[], &[&[70]]),
    (GETATTR, ROOT, &[], &[&[0], &ROOT_MADE]),
    (STATFS, ROOT, &[], &[&[0, 8192, 512, 60, 59, 59]]),
    (REMOVE, ROOT, &[&F], &[&[2]]),
    (CREATE, ROOT, &[&F, &UNSET], &[&[0], &SECOND, &SECOND_MADE]),
];

const REMOVED: [Row; 6] = [
    (LOOKUP, ROOT, &[&F], &[&[2]]),
    (GETATTR, FILE, &[], &[&[70]]),
    (GETATTR, ROOT, &[], &[&[0], &ROOT_CHANGED]),
    (STATFS, ROOT, &[], &[&[0, 8192, 512, 60, 59, 59]]),
    (REMOVE, ROOT, &[&F], &[&[2]]),
    (CREATE, ROOT, &[&F, &UNSET], &[&[0], &SECOND, &SECOND_MADE]),
];

// A REMOVE of `f`, the one name of file 3. The slot is put, and then the inodes of the root and the file, which stand in one sector.
const REMOVE_FAILS: Row = (REMOVE, ROOT, &[&F], &[&[5]]);

const REMOVED_AFTER: [&[Row]; 3] = [&NOT_REMOVED, &EMPTIED, &REMOVED];

#[test]
fn a_removal_leaves_all_but_the_times_or_nothing(rt: HostRuntime) -> Result<(), Fail> {
    let alloc = rt.alloc();
    let disk = test_volume(alloc, FRESH)?;
    for cuts in [false, true] {
        assert_eq!(rt;
            broken(alloc, &disk, REMOVE_FAILS, &REMOVED_AFTER, cuts)?,
            None
        );
    }
    Ok(())
}
