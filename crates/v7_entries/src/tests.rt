//! The root of a small volume that was worked by hand, and a directory of two sectors.

use super::*;
use files_model::Name;
use stable::NoMemory;
use std::alloc::Global;
use std::test::Fail;
use store_mem::Memory;
use v7_layout::{Inode, Record};
use volume_mem::{FRESH, test_volume};

fn named(bytes: &[u8]) -> Name {
    if bytes.len() > 255 {
        return Name::copy(b"too long");
    }
    Name::copy(bytes)
}

// The volume with `..` of the root, or `f`, emptied, and slot 32 of a directory, `z` of inode 5, at the start of sector 7.
fn store(alloc: Global, emptied: usize) -> Result<Memory, NoMemory> {
    let mut sectors = test_volume(alloc, FRESH)?;
    // a store asks that its sectors can be numbered
    sectors.truncate(64);
    if let Some(root) = sectors.get_mut(4) {
        if emptied < 32 {
            root[16 * emptied] = 0;
        }
    }
    if let Some(second) = sectors.get_mut(7) {
        second[0] = 5;
        second[2] = b'z';
    }
    Memory::new(alloc, &sectors)
}

// A directory of so many bytes in sectors 4 and 7.
fn directory(size: u32) -> Inode {
    let mut inode = Inode::read(&[0; 64]);
    inode.mode = 0o040_755;
    inode.size = size;
    inode.direct[0] = 4;
    inode.direct[1] = 7;
    inode
}

#[test]
fn names_are_found_in_their_sectors(rt: HostRuntime) -> Result<(), Fail> {
    let mut store = store(rt.alloc(), 32).map_err(|_| "memory")?;
    let f = NamedSlot {
        slot: 2,
        ino: 3,
        sector: 4,
    };
    let z = NamedSlot {
        slot: 32,
        ino: 5,
        sector: 7,
    };
    for (size, name, wanted) in [
        (48, b"f".as_slice(), Some(f)),
        (32, b"f".as_slice(), None),
        (48, b"z".as_slice(), None),
        (512, b"z".as_slice(), None),
        (528, b"z".as_slice(), Some(z)),
        (528, b"".as_slice(), None),
    ] {
        let found = find_entry(&mut store, &directory(size), &named(name));
        assert!(rt; found == Ok(wanted));
    }
    Ok(())
}

#[test]
fn empty_slots_and_entries(rt: HostRuntime) -> Result<(), Fail> {
    let alloc = rt.alloc();
    let second = EmptySlot { slot: 2, sector: 4 };
    let third = EmptySlot { slot: 3, sector: 4 };
    for (emptied, size, empty, entries) in [
        (32, 48, None, true),
        (32, 64, Some(third), true),
        (2, 48, Some(second), false),
        (2, 512, Some(second), false),
        (2, 528, Some(second), true),
    ] {
        let mut store = store(alloc, emptied).map_err(|_| "memory")?;
        assert!(rt; find_empty(&mut store, &directory(size)) == Ok(empty));
        assert!(rt; has_entries(&mut store, &directory(size)) == Ok(entries));
    }
    Ok(())
}

#[test]
fn inodes_are_read_by_their_numbers(rt: HostRuntime) -> Result<(), Fail> {
    let mut store = store(rt.alloc(), 32).map_err(|_| "memory")?;
    let file = read_inode(&mut store, 3).map_err(|_| "failed")?;
    assert!(rt; matches!(file, Some(inode) if inode.mode == 0o100_644 && inode.size == 1024));
    let past = read_inode(&mut store, 1000).map_err(|_| "failed")?;
    assert!(rt; past.is_none());
    Ok(())
}
