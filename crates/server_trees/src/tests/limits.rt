//! A directory of 138 sectors, the most that there can be, and files with as many links as there can be.

use crate::tests::disks::crowded_disk;
use server_runs::asking::{
    CREATE, F, FILE, G, GETATTR, LINK, LOOKUP, MKDIR, READLINK, REMOVE, RENAME, ROOT, Row,
    SUPERUSER, SYMLINK, UNSET, answered,
};
use server_runs::volumes::rig_with;
use std::test::Fail;

// The handle of directory 4.
const D: [u32; 8] = [0x56374e32, 0, 4, 1, 0, 0, 0, 0];

// The names `n`, `m` and `x`.
const N: [u32; 2] = [1, 0x6e000000];

const M: [u32; 2] = [1, 0x6d000000];

const X: [u32; 2] = [1, 0x78000000];

// Of 70,656 bytes, with names that were changed at second 2000; the file with one link less than 4,415.
const LONGEST: [u32; 17] = [
    2, 0x41ed, 2, 0, 0, 70656, 0x200, 0, 138, 0, 4, 0x3e8, 0, 0x7d0, 0, 0x7d0, 0,
];

const ONE_LESS: [u32; 17] = [
    1, 0x81a4, 4414, 0, 0, 0, 0x200, 0, 0, 0, 3, 0x3e8, 0, 0x3e8, 0, 0x7d0, 0,
];

// No entry is added; a slot gets another name, and an empty one is taken.
const AT_LIMIT: [Row; 12] = [
    (CREATE, D, &[&X, &UNSET], &[&[27]]),
    (MKDIR, D, &[&X, &UNSET], &[&[27]]),
    (SYMLINK, D, &[&X, &[0], &UNSET], &[&[27]]),
    (LINK, FILE, &[&D, &X], &[&[27]]),
    (RENAME, ROOT, &[&F, &D, &M], &[&[27]]),
    (RENAME, D, &[&N, &D, &M], &[&[0]]),
    (REMOVE, D, &[&M], &[&[0]]),
    (RENAME, ROOT, &[&F, &D, &X], &[&[0]]),
    (LOOKUP, ROOT, &[&F], &[&[2]]),
    (LOOKUP, D, &[&X], &[&[0], &FILE, &ONE_LESS]),
    (GETATTR, D, &[], &[&[0], &LONGEST]),
    (READLINK, D, &[], &[&[6]]),
];

#[test]
fn a_directory_at_its_limit_takes_no_entry_more(rt: HostRuntime) -> Result<(), Fail> {
    let alloc = rt.alloc();
    let rig = rig_with(alloc, crowded_disk(alloc, 1, 4415)?);
    assert!(rt; answered(alloc, rig, &SUPERUSER, &AT_LIMIT)?.is_some());
    Ok(())
}

// The last of eight directories, in which slots are empty, and the file with 32,767 links, the last of which LINK made.
const EIGHTH: [u32; 8] = [0x56374e32, 0, 11, 1, 0, 0, 0, 0];

const LINKED: [u32; 17] = [
    1, 0x81a4, 32767, 0, 0, 0, 0x200, 0, 0, 0, 3, 0x3e8, 0, 0x3e8, 0, 0x7d0, 0,
];

// LINK makes no link more, and RENAME passes through one more.
const MOST_LINKED: [Row; 5] = [
    (LINK, FILE, &[&ROOT, &G], &[&[0]]),
    (GETATTR, FILE, &[], &[&[0], &LINKED]),
    (LINK, FILE, &[&ROOT, &X], &[&[28]]),
    (RENAME, ROOT, &[&F, &EIGHTH, &F], &[&[0]]),
    (LOOKUP, EIGHTH, &[&F], &[&[0], &FILE, &LINKED]),
];

#[test]
fn a_file_of_32767_links_gets_no_link_more(rt: HostRuntime) -> Result<(), Fail> {
    let alloc = rt.alloc();
    let rig = rig_with(alloc, crowded_disk(alloc, 8, 32766)?);
    assert!(rt; answered(alloc, rig, &SUPERUSER, &MOST_LINKED)?.is_some());
    Ok(())
}

// The last of 15 directories, in which slots are empty, file 19, and the file with 65,535 links, the most that can be counted, and with one less.
const FIFTEENTH: [u32; 8] = [0x56374e32, 0, 18, 1, 0, 0, 0, 0];

const OTHER: [u32; 8] = [0x56374e32, 0, 19, 1, 0, 0, 0, 0];

const OTHER_MADE: [u32; 17] = [
    1, 0x81b6, 1, 0, 0, 0, 0x200, 0, 0, 0, 19, 0x7d0, 0, 0x7d0, 0, 0x7d0, 0,
];

const COUNTED: [u32; 17] = [
    1, 0x81a4, 65535, 0, 0, 0, 0x200, 0, 0, 0, 3, 0x3e8, 0, 0x3e8, 0, 0x3e8, 0,
];

const RELIEVED: [u32; 17] = [
    1, 0x81a4, 65534, 0, 0, 0, 0x200, 0, 0, 0, 3, 0x3e8, 0, 0x3e8, 0, 0x7d0, 0,
];

// A RENAME by which two slots change is refused, and one by which a slot's name changes isn't.
const MOST_COUNTED: [Row; 9] = [
    (LINK, FILE, &[&ROOT, &G], &[&[28]]),
    (RENAME, ROOT, &[&F, &FIFTEENTH, &F], &[&[28]]),
    (CREATE, ROOT, &[&X, &UNSET], &[&[0], &OTHER, &OTHER_MADE]),
    (RENAME, ROOT, &[&F, &ROOT, &X], &[&[28]]),
    (RENAME, ROOT, &[&F, &ROOT, &G], &[&[0]]),
    (LOOKUP, ROOT, &[&G], &[&[0], &FILE, &COUNTED]),
    (REMOVE, FIFTEENTH, &[&N], &[&[0]]),
    (RENAME, ROOT, &[&G, &FIFTEENTH, &F], &[&[0]]),
    (LOOKUP, FIFTEENTH, &[&F], &[&[0], &FILE, &RELIEVED]),
];

#[test]
fn a_file_of_65535_links_is_not_moved_by_two_slots(rt: HostRuntime) -> Result<(), Fail> {
    let alloc = rt.alloc();
    let rig = rig_with(alloc, crowded_disk(alloc, 15, 65535)?);
    assert!(rt; answered(alloc, rig, &SUPERUSER, &MOST_COUNTED)?.is_some());
    Ok(())
}
