//! REMOVE (RFC 1094 2.2.11), through datagrams, and what is made after it.

use server_runs::asking::{
    CREATE, F, FILE, FILE_MADE, FOURTH, FOURTH_MADE, G, GETATTR, LOOKUP, OLD_ROOT, REMOVE, ROOT,
    ROOT_CHANGED, Row, STATFS, SUPERUSER, UNSET, answered,
};
use server_runs::disks::{aged_disk, linked_disk, long_disk, nested_disk};
use server_runs::volumes::{has_chain, has_files, is_stopped, is_volume, rig, rig_with};
use server_runs::worked::CREDENTIAL;
use std::test::Fail;
use volume_mem::{FRESH, Shape};

// ---- links

// File 3 with two names, and with the one that is left.
const LINKED: [u32; 17] = [
    1, 0x81a4, 2, 0x64, 0x64, 0x400, 0x200, 0, 2, 0, 3, 0x3e8, 0, 0x3e8, 0, 0x3e8, 0,
];

const UNLINKED: [u32; 17] = [
    1, 0x81a4, 1, 0x64, 0x64, 0x400, 0x200, 0, 2, 0, 3, 0x3e8, 0, 0x3e8, 0, 0x7d0, 0,
];

// The root keeps the size of its four slots.
const ROOT_OF_FOUR: [u32; 17] = [
    2, 0x41ed, 2, 0, 0, 64, 0x200, 0, 1, 0, 2, 0x3e8, 0, 0x7d0, 0, 0x7d0, 0,
];

const ONE_OF_TWO: [Row; 7] = [
    (LOOKUP, ROOT, &[&G], &[&[0], &FILE, &LINKED]),
    (REMOVE, ROOT, &[&F], &[&[0]]),
    (LOOKUP, ROOT, &[&F], &[&[2]]),
    (LOOKUP, ROOT, &[&G], &[&[0], &FILE, &UNLINKED]),
    (GETATTR, ROOT, &[], &[&[0], &ROOT_OF_FOUR]),
    (STATFS, ROOT, &[], &[&[0, 8192, 512, 60, 57, 57]]),
    (REMOVE, ROOT, &[&F], &[&[2]]),
];

#[test]
fn a_file_stays_by_its_other_name(rt: HostRuntime) -> Result<(), Fail> {
    let alloc = rt.alloc();
    let rig = rig_with(alloc, linked_disk(alloc)?);
    let Some(rig) = answered(alloc, rig, &SUPERUSER, &ONE_OF_TWO)? else {
        panic!(rt; "another reply");
    };
    assert!(rt; is_stopped(&rig, 1500));
    Ok(())
}

// Its 13 blocks are free again: two sectors of 12 stand in its indirect block, which is one block more.
const LAST_LINK: [Row; 5] = [
    (STATFS, ROOT, &[], &[&[0, 8192, 512, 60, 46, 46]]),
    (REMOVE, ROOT, &[&F], &[&[0]]),
    (STATFS, ROOT, &[], &[&[0, 8192, 512, 60, 59, 59]]),
    (GETATTR, FILE, &[], &[&[70]]),
    (GETATTR, ROOT, &[], &[&[0], &ROOT_CHANGED]),
];

#[test]
fn the_last_name_takes_the_file_with_it(rt: HostRuntime) -> Result<(), Fail> {
    let alloc = rt.alloc();
    let rig = rig_with(alloc, long_disk(alloc)?);
    let Some(rig) = answered(alloc, rig, &SUPERUSER, &LAST_LINK)? else {
        panic!(rt; "another reply");
    };
    assert!(rt; has_chain(&rig, 1500, 5, 14));
    Ok(())
}

// ---- refusals

const REFUSED: [Row; 6] = [
    (REMOVE, OLD_ROOT, &[&F], &[&[70]]),
    (REMOVE, FILE, &[&[0]], &[&[20]]),
    (REMOVE, ROOT, &[&[2, 0x2e2e0000]], &[&[13]]),
    (REMOVE, ROOT, &[&[0]], &[&[13]]),
    (
        REMOVE,
        ROOT,
        &[&[15, 0x66696674, 0x65656e20, 0x62797465, 0x732e2e00]],
        &[&[63]],
    ),
    (REMOVE, ROOT, &[&G], &[&[2]]),
];

// Of user 100, whom the root doesn't let write.
const SHUT_OUT: [Row; 2] = [
    (REMOVE, ROOT, &[&F], &[&[13]]),
    (REMOVE, ROOT, &[&G], &[&[2]]),
];

#[test]
fn a_refused_removal_changes_nothing(rt: HostRuntime) -> Result<(), Fail> {
    let alloc = rt.alloc();
    let Some(rig) = answered(alloc, rig(alloc, FRESH)?, &SUPERUSER, &REFUSED)? else {
        panic!(rt; "another reply");
    };
    let Some(rig) = answered(alloc, rig, &CREDENTIAL, &SHUT_OUT)? else {
        panic!(rt; "another reply");
    };
    assert!(rt; is_volume(alloc, &rig, FRESH)? && is_stopped(&rig, 1500));
    Ok(())
}

const READ_ONLY: Shape = Shape {
    read_only: 1,
    ..FRESH
};

const UNWRITABLE: [Row; 2] = [
    (REMOVE, FILE, &[&F], &[&[30]]),
    (REMOVE, OLD_ROOT, &[&F], &[&[70]]),
];

const DIRECTORY: [Row; 1] = [(REMOVE, ROOT, &[&F], &[&[21]])];

#[test]
fn no_directory_is_removed_and_nothing_where_it_may_not_be(rt: HostRuntime) -> Result<(), Fail> {
    let alloc = rt.alloc();
    assert!(rt; answered(alloc, rig(alloc, READ_ONLY)?, &SUPERUSER, &UNWRITABLE)?.is_some());
    let rig = rig_with(alloc, nested_disk(alloc)?);
    let Some(rig) = answered(alloc, rig, &SUPERUSER, &DIRECTORY)? else {
        panic!(rt; "another reply");
    };
    assert!(rt; has_files(&rig, &nested_disk(alloc)?, 7));
    Ok(())
}

// ---- generations

// File 3 of generation 2, as user 0 makes it.
const SECOND: [u32; 8] = [0x56374e32, 0, 3, 2, 0, 0, 0, 0];

const SECOND_MADE: [u32; 17] = [
    1, 0x81b6, 1, 0, 0, 0, 0x200, 0, 0, 0, 3, 0x7d0, 0, 0x7d0, 0, 0x7d0, 0,
];

const MADE_ANEW: [Row; 8] = [
    (GETATTR, FILE, &[], &[&[0], &FILE_MADE]),
    (REMOVE, ROOT, &[&F], &[&[0]]),
    (GETATTR, FILE, &[], &[&[70]]),
    (CREATE, ROOT, &[&F, &UNSET], &[&[0], &SECOND, &SECOND_MADE]),
    (GETATTR, FILE, &[], &[&[70]]),
    (GETATTR, SECOND, &[], &[&[0], &SECOND_MADE]),
    (GETATTR, ROOT, &[], &[&[0], &ROOT_CHANGED]),
    (STATFS, ROOT, &[], &[&[0, 8192, 512, 60, 59, 59]]),
];

#[test]
fn a_number_that_is_taken_again_has_a_new_generation(rt: HostRuntime) -> Result<(), Fail> {
    let alloc = rt.alloc();
    let Some(rig) = answered(alloc, rig(alloc, FRESH)?, &SUPERUSER, &MADE_ANEW)? else {
        panic!(rt; "another reply");
    };
    assert!(rt; has_chain(&rig, 1500, 5, 13));
    Ok(())
}

// A handle of file 3 of the last generation.
const LAST: [u32; 8] = [0x56374e32, 0, 3, u32::MAX, 0, 0, 0, 0];

const FIFTH: [u32; 8] = [0x56374e32, 0, 5, 1, 0, 0, 0, 0];

const FIFTH_MADE: [u32; 17] = [
    1, 0x81b6, 1, 0, 0, 0, 0x200, 0, 0, 0, 5, 0x7d0, 0, 0x7d0, 0, 0x7d0, 0,
];

const PASSED_OVER: [Row; 5] = [
    (GETATTR, LAST, &[], &[&[0], &FILE_MADE]),
    (REMOVE, ROOT, &[&F], &[&[0]]),
    (GETATTR, LAST, &[], &[&[70]]),
    (CREATE, ROOT, &[&F, &UNSET], &[&[0], &FOURTH, &FOURTH_MADE]),
    (REMOVE, ROOT, &[&F], &[&[0]]),
];

// File 4 is made anew, and its number is free no more.
const PASSED_AGAIN: [Row; 2] = [
    (
        CREATE,
        ROOT,
        &[&F, &UNSET],
        &[&[0], &[0x56374e32, 0, 4, 2, 0, 0, 0, 0], &FOURTH_MADE],
    ),
    (CREATE, ROOT, &[&G, &UNSET], &[&[0], &FIFTH, &FIFTH_MADE]),
];

#[test]
fn a_number_of_the_last_generation_is_not_taken_again(rt: HostRuntime) -> Result<(), Fail> {
    let alloc = rt.alloc();
    let rig = rig_with(alloc, aged_disk(alloc, u32::MAX)?);
    let Some(rig) = answered(alloc, rig, &SUPERUSER, &PASSED_OVER)? else {
        panic!(rt; "another reply");
    };
    assert!(rt; has_chain(&rig, 1500, 5, 13));
    assert!(rt; answered(alloc, rig.crash(true, 0), &SUPERUSER, &PASSED_AGAIN)?.is_some());
    Ok(())
}
