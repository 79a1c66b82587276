//! CREATE (RFC 1094 2.2.10), through datagrams.

use server_runs::asking::{
    CREATE, F, FILE, FILE_MADE, FOURTH, FOURTH_MADE, G, GETATTR, LOOKUP, OLD_ROOT, REMOVE, ROOT,
    ROOT_CHANGED, ROOT_MADE, Row, STATFS, SUPERUSER, UNSET, answered,
};
use server_runs::disks::{full_disk, nested_disk};
use server_runs::volumes::{has_files, is_stopped, is_volume, rig, rig_with};
use server_runs::worked::CREDENTIAL;
use std::test::Fail;
use volume_mem::{FRESH, Shape};

// ---- a directory that grows

// The root of 512 bytes, and of one slot more and two.
const FULL: [u32; 17] = [
    2, 0x41ed, 2, 0, 0, 512, 0x200, 0, 1, 0, 2, 0x3e8, 0, 0x3e8, 0, 0x3e8, 0,
];

const LONGER: [u32; 17] = [
    2, 0x41ed, 2, 0, 0, 528, 0x200, 0, 2, 0, 2, 0x3e8, 0, 0x7d0, 0, 0x7d0, 0,
];

const LONGEST: [u32; 17] = [
    2, 0x41ed, 2, 0, 0, 544, 0x200, 0, 2, 0, 2, 0x3e8, 0, 0x7d0, 0, 0x7d0, 0,
];

const FIFTH: [u32; 8] = [0x56374e32, 0, 5, 1, 0, 0, 0, 0];

const FIFTH_MADE: [u32; 17] = [
    1, 0x81b6, 1, 0, 0, 0, 0x200, 0, 0, 0, 5, 0x7d0, 0, 0x7d0, 0, 0x7d0, 0,
];

// The names `x` and `y`.
const X: [u32; 2] = [1, 0x78000000];

const Y: [u32; 2] = [1, 0x79000000];

// Of blocks 4 to 7 the last is free; the second new name needs no block.
const GROWING: [Row; 7] = [
    (STATFS, ROOT, &[], &[&[0, 8192, 512, 4, 1, 1]]),
    (GETATTR, ROOT, &[], &[&[0], &FULL]),
    (CREATE, ROOT, &[&X, &UNSET], &[&[0], &FOURTH, &FOURTH_MADE]),
    (GETATTR, ROOT, &[], &[&[0], &LONGER]),
    (STATFS, ROOT, &[], &[&[0, 8192, 512, 4, 0, 0]]),
    (CREATE, ROOT, &[&Y, &UNSET], &[&[0], &FIFTH, &FIFTH_MADE]),
    (GETATTR, ROOT, &[], &[&[0], &LONGEST]),
];

const GROWN: [Row; 5] = [
    (LOOKUP, ROOT, &[&X], &[&[0], &FOURTH, &FOURTH_MADE]),
    (LOOKUP, ROOT, &[&Y], &[&[0], &FIFTH, &FIFTH_MADE]),
    (GETATTR, ROOT, &[], &[&[0], &LONGEST]),
    (STATFS, ROOT, &[], &[&[0, 8192, 512, 4, 0, 0]]),
    (GETATTR, FOURTH, &[], &[&[0], &FOURTH_MADE]),
];

#[test]
fn a_full_directory_grows_by_the_last_free_block(rt: HostRuntime) -> Result<(), Fail> {
    let alloc = rt.alloc();
    let rig = rig_with(alloc, full_disk(alloc, 8)?);
    let Some(rig) = answered(alloc, rig, &SUPERUSER, &GROWING)? else {
        panic!(rt; "another reply");
    };
    assert!(rt; answered(alloc, rig.crash(true, 0), &SUPERUSER, &GROWN)?.is_some());
    Ok(())
}

// Blocks 4 to 6 are all in use.
const UNGROWN: [Row; 4] = [
    (STATFS, ROOT, &[], &[&[0, 8192, 512, 3, 0, 0]]),
    (CREATE, ROOT, &[&X, &UNSET], &[&[28]]),
    (GETATTR, ROOT, &[], &[&[0], &FULL]),
    (LOOKUP, ROOT, &[&X], &[&[2]]),
];

#[test]
fn a_full_directory_stays_without_a_free_block(rt: HostRuntime) -> Result<(), Fail> {
    let alloc = rt.alloc();
    let rig = rig_with(alloc, full_disk(alloc, 7)?);
    let Some(rig) = answered(alloc, rig, &SUPERUSER, &UNGROWN)? else {
        panic!(rt; "another reply");
    };
    assert!(rt; has_files(&rig, &full_disk(alloc, 7)?, 64));
    Ok(())
}

// ---- names

// Of 14 bytes and of 15, and one of 15 that has a slash.
const FOURTEEN: [u32; 5] = [14, 0x666f7572, 0x7465656e, 0x20627974, 0x65730000];

const FIFTEEN: [u32; 5] = [15, 0x66696674, 0x65656e20, 0x62797465, 0x732e2e00];

const SLASHED: [u32; 5] = [15, 0x66696674, 0x65656e2f, 0x62797465, 0x732e2e00];

const BAD_NAMES: [Row; 8] = [
    (CREATE, ROOT, &[&FIFTEEN, &UNSET], &[&[63]]),
    (CREATE, ROOT, &[&SLASHED, &UNSET], &[&[13]]),
    (CREATE, ROOT, &[&[2, 0x2e2e0000], &UNSET], &[&[13]]),
    (CREATE, ROOT, &[&[1, 0x2e000000], &UNSET], &[&[13]]),
    (CREATE, ROOT, &[&[0], &UNSET], &[&[13]]),
    (CREATE, ROOT, &[&[2, 0x66000000], &UNSET], &[&[13]]),
    (CREATE, ROOT, &[&[2, 0x2f660000], &UNSET], &[&[13]]),
    (STATFS, ROOT, &[], &[&[0, 8192, 512, 60, 57, 57]]),
];

#[test]
fn a_bad_name_is_not_made(rt: HostRuntime) -> Result<(), Fail> {
    let alloc = rt.alloc();
    let Some(rig) = answered(alloc, rig(alloc, FRESH)?, &SUPERUSER, &BAD_NAMES)? else {
        panic!(rt; "another reply");
    };
    assert!(rt; is_volume(alloc, &rig, FRESH)? && is_stopped(&rig, 1500));
    Ok(())
}

const LONG_NAME: [Row; 4] = [
    (
        CREATE,
        ROOT,
        &[&FOURTEEN, &UNSET],
        &[&[0], &FOURTH, &FOURTH_MADE],
    ),
    (LOOKUP, ROOT, &[&FOURTEEN], &[&[0], &FOURTH, &FOURTH_MADE]),
    (LOOKUP, ROOT, &[&FIFTEEN], &[&[63]]),
    (STATFS, ROOT, &[], &[&[0, 8192, 512, 60, 57, 57]]),
];

#[test]
fn a_name_of_14_bytes_is_made(rt: HostRuntime) -> Result<(), Fail> {
    let alloc = rt.alloc();
    assert!(rt; answered(alloc, rig(alloc, FRESH)?, &SUPERUSER, &LONG_NAME)?.is_some());
    Ok(())
}

// ---- refusals

// Sattrs of a directory's mode alone, of 0644, user and group 100 and 1,000 bytes, and of sizes alone: 70,657 bytes, and 700.
const OF_DIRECTORY: [u32; 8] = [
    0x41ed,
    u32::MAX,
    u32::MAX,
    u32::MAX,
    u32::MAX,
    u32::MAX,
    u32::MAX,
    u32::MAX,
];

const OWNED: [u32; 8] = [
    0x81a4,
    0x64,
    0x64,
    1000,
    u32::MAX,
    u32::MAX,
    u32::MAX,
    u32::MAX,
];

const TOO_LARGE: [u32; 8] = [
    u32::MAX,
    u32::MAX,
    u32::MAX,
    70657,
    u32::MAX,
    u32::MAX,
    u32::MAX,
    u32::MAX,
];

const SMALLER: [u32; 8] = [
    u32::MAX,
    u32::MAX,
    u32::MAX,
    700,
    u32::MAX,
    u32::MAX,
    u32::MAX,
    u32::MAX,
];

const REFUSED: [Row; 7] = [
    (CREATE, OLD_ROOT, &[&G, &UNSET], &[&[70]]),
    (CREATE, FILE, &[&[0], &UNSET], &[&[20]]),
    (CREATE, ROOT, &[&G, &OF_DIRECTORY], &[&[1]]),
    (CREATE, ROOT, &[&F, &OF_DIRECTORY], &[&[1]]),
    (CREATE, ROOT, &[&G, &TOO_LARGE], &[&[27]]),
    (CREATE, ROOT, &[&F, &TOO_LARGE], &[&[27]]),
    (GETATTR, ROOT, &[], &[&[0], &ROOT_MADE]),
];

// Of user 100, whom the root doesn't let write.
const SHUT_OUT: [Row; 2] = [
    (CREATE, ROOT, &[&G, &UNSET], &[&[13]]),
    (CREATE, ROOT, &[&G, &TOO_LARGE], &[&[13]]),
];

#[test]
fn a_refused_creation_changes_nothing(rt: HostRuntime) -> Result<(), Fail> {
    let alloc = rt.alloc();
    let Some(rig) = answered(alloc, rig(alloc, FRESH)?, &SUPERUSER, &REFUSED)? else {
        panic!(rt; "another reply");
    };
    let Some(rig) = answered(alloc, rig, &CREDENTIAL, &SHUT_OUT)? else {
        panic!(rt; "another reply");
    };
    assert!(rt; is_volume(alloc, &rig, FRESH)? && is_stopped(&rig, 1500));
    Ok(())
}

const READ_ONLY: Shape = Shape {
    read_only: 1,
    ..FRESH
};

const LINK: Shape = Shape {
    mode: 0o120_777,
    ..FRESH
};

const UNWRITABLE: [Row; 2] = [
    (CREATE, FILE, &[&G, &UNSET], &[&[30]]),
    (CREATE, OLD_ROOT, &[&G, &UNSET], &[&[70]]),
];

const STANDING: [Row; 1] = [(CREATE, ROOT, &[&F, &UNSET], &[&[17]])];

#[test]
fn nothing_is_made_where_it_may_not_be(rt: HostRuntime) -> Result<(), Fail> {
    let alloc = rt.alloc();
    assert!(rt; answered(alloc, rig(alloc, READ_ONLY)?, &SUPERUSER, &UNWRITABLE)?.is_some());
    assert!(rt; answered(alloc, rig(alloc, LINK)?, &SUPERUSER, &STANDING)?.is_some());
    let rig = rig_with(alloc, nested_disk(alloc)?);
    assert!(rt; answered(alloc, rig, &SUPERUSER, &STANDING)?.is_some());
    Ok(())
}

// ---- files that stand, and attributes that are set

const CUT_OFF: [u32; 17] = [
    1, 0x81a4, 1, 0x64, 0x64, 700, 0x200, 0, 2, 0, 3, 0x3e8, 0, 0x7d0, 0, 0x7d0, 0,
];

const OWNED_MADE: [u32; 17] = [
    1, 0x81a4, 1, 0x64, 0x64, 1000, 0x200, 0, 2, 0, 4, 0x7d0, 0, 0x7d0, 0, 0x7d0, 0,
];

// A file of 1,000 bytes that were never written takes no block.
const SET: [Row; 7] = [
    (CREATE, ROOT, &[&F, &UNSET], &[&[0], &FILE, &FILE_MADE]),
    (GETATTR, ROOT, &[], &[&[0], &ROOT_MADE]),
    (CREATE, ROOT, &[&F, &SMALLER], &[&[0], &FILE, &CUT_OFF]),
    (GETATTR, ROOT, &[], &[&[0], &ROOT_MADE]),
    (CREATE, ROOT, &[&G, &OWNED], &[&[0], &FOURTH, &OWNED_MADE]),
    (GETATTR, FOURTH, &[], &[&[0], &OWNED_MADE]),
    (STATFS, ROOT, &[], &[&[0, 8192, 512, 60, 57, 57]]),
];

#[test]
fn a_standing_file_gets_the_size_alone_and_a_new_one_its_attributes(
    rt: HostRuntime,
) -> Result<(), Fail> {
    let alloc = rt.alloc();
    assert!(rt; answered(alloc, rig(alloc, FRESH)?, &SUPERUSER, &SET)?.is_some());
    Ok(())
}

// Of user 100, who may write to its file, and not in the root.
const OF_THE_OWNER: [Row; 3] = [
    (CREATE, ROOT, &[&F, &SMALLER], &[&[0], &FILE, &CUT_OFF]),
    (REMOVE, ROOT, &[&F], &[&[13]]),
    (GETATTR, ROOT, &[], &[&[0], &ROOT_MADE]),
];

#[test]
fn an_owner_sets_the_size_of_a_file_where_nothing_may_be_made(rt: HostRuntime) -> Result<(), Fail> {
    let alloc = rt.alloc();
    assert!(rt; answered(alloc, rig(alloc, FRESH)?, &CREDENTIAL, &OF_THE_OWNER)?.is_some());
    Ok(())
}
