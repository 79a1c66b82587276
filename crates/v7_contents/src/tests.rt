//! A directory of `.`, `..` and 40 names in two sectors of a small volume, and a link of two.

use super::*;
use files_model::{Entry, FileId};
use stable::NoMemory;
use std::alloc::Global;
use std::test::Fail;
use store_mem::Memory;
use v7_layout::{Inode, Record, Slot};
use v7_read::{empty_sector, find};
use volume_mem::{FRESH, Shape, test_volume};

/// How many slots the directory has.
const SLOTS: usize = 42;

/// The volume where file 3, of 1,024 bytes, is a symbolic link.
const LINK: Shape = Shape {
    mode: 0o120_777,
    ..FRESH
};

// The name in slot k: `.`, `..`, or eight bytes.
fn name_of(k: usize) -> [u8; 14] {
    let mut name = [0; 14];
    match k {
        0 => name[0] = b'.',
        1 => {
            name[0] = b'.';
            name[1] = b'.';
        }
        _ => {
            for byte in 0..8 {
                name[byte] = b'n';
            }
            name[7] = b'0' + (k % 64) as u8;
        }
    }
    name
}

// A sector of slots, numbered from 0 or 32, of which one is emptied.
fn slots(second: bool, emptied: usize) -> [u8; 512] {
    let first = if second { 32 } else { 0 };
    let mut sector = empty_sector();
    for k in 0..32 {
        let number = first + k;
        let slot = Slot {
            ino: 100 + number as u16,
            name: name_of(number),
        };
        if number < SLOTS && number != emptied {
            slot.write(&mut sector[16 * k..16 * k + 16]);
        }
    }
    sector
}

// The volume of a link, with the slots in sectors 4 and 7.
fn store(alloc: Global, emptied: usize) -> Result<Memory, NoMemory> {
    let mut sectors = test_volume(alloc, LINK)?;
    // a store asks that its sectors can be numbered
    sectors.truncate(64);
    if let Some(first) = sectors.get_mut(4) {
        *first = slots(false, emptied);
    }
    if let Some(second) = sectors.get_mut(7) {
        *second = slots(true, emptied);
    }
    Memory::new(alloc, &sectors)
}

// The directory, of 42 slots.
fn directory() -> Inode {
    let mut inode = Inode::read(&[0; 64]);
    inode.mode = 0o040_755;
    inode.size = 16 * 42;
    inode.direct[0] = 4;
    inode.direct[1] = 7;
    inode
}

// The entry of a slot, by its name's first 8 bytes.
fn is_entry(entry: &Entry, k: usize) -> bool {
    let name = name_of(k);
    let end = match k {
        0 => 1,
        1 => 2,
        _ => 8,
    };
    entry.fileid as usize == 100 + k % 64
        && entry.cookie as usize == k % 64 + 1
        && entry.name.bytes() == &name[..end]
}

// Whether a listing has so many entries, in slots that follow each other from one on, and this end.
fn lists(listing: &Listing, first: usize, many: usize, end: bool) -> bool {
    for (k, entry) in listing.list.list().iter().enumerate() {
        if !is_entry(entry, (first % 64 + k % 64) % 64) {
            return false;
        }
    }
    listing.list.list().len() == many && listing.end == end
}

#[test]
fn pages_of_a_directory(rt: HostRuntime) -> Result<(), Fail> {
    let alloc = rt.alloc();
    let mut store = store(alloc, SLOTS).map_err(|_| "memory")?;
    let dir = directory();
    for (cookie, count, many, end) in [
        (0, 512, 21, false),
        (21, 512, 20, false),
        (41, 512, 1, true),
        (0, 8192, 42, true),
        (0, 0, 1, false),
        (31, 12, 1, false),
        (42, 512, 0, true),
        (4_294_967_295, 512, 0, true),
    ] {
        let listing = list_entries(alloc, &mut store, &dir, cookie, count).map_err(|_| "failed")?;
        assert!(rt; lists(&listing, cookie as usize % 64, many, end));
    }
    Ok(())
}

#[test]
fn empty_slots_are_passed_over(rt: HostRuntime) -> Result<(), Fail> {
    let alloc = rt.alloc();
    let mut store = store(alloc, 41).map_err(|_| "memory")?;
    let dir = directory();
    let listing = list_entries(alloc, &mut store, &dir, 40, 512).map_err(|_| "failed")?;
    assert!(rt; lists(&listing, 40, 1, true));
    Ok(())
}

#[test]
fn a_link_of_1024_bytes(rt: HostRuntime) -> Result<(), Fail> {
    let alloc = rt.alloc();
    let mut store = store(alloc, SLOTS).map_err(|_| "memory")?;
    let file = FileId {
        ino: 3,
        generation: 1,
    };
    let Ok(Some(link)) = find(&mut store, file) else {
        return Err(Fail::new("no link"));
    };
    let text = read_content(alloc, &mut store, &link, 0, 1024).map_err(|_| "failed")?;
    assert!(rt; text.as_slice() == [b'a'; 1024].as_slice());
    assert!(rt; readlink_refusal_of(&link.inode).is_none());
    Ok(())
}
