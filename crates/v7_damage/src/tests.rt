//! What the tests of a small volume find out. Its damages are the tests of the inspection above.

use super::*;
use stable::Stable;
use std::test::Fail;
use store_mem::Memory;
use v7_read::inode_sector_of;
use volume_mem::{FRESH, test_volume};

#[test]
fn the_root_and_its_file_are_known(rt: HostRuntime) -> Result<(), Fail> {
    let mut sectors = test_volume(rt.alloc(), FRESH)?;
    // a store asks that its sectors can be numbered
    sectors.truncate(64);
    let mut store = Memory::new(rt.alloc(), &sectors)?;
    let Ok(known) = find_damage(rt.alloc(), &mut store) else {
        assert!(rt; false);
        return Ok(());
    };
    assert!(rt; known.super_block.s_fsize == 64);
    assert!(rt; known.types.len() == 17 && known.counts.len() == 17);
    for (ino, found) in known.types.iter().enumerate() {
        let wanted = match ino {
            2 => 4,
            3 => 8,
            _ => 0,
        };
        assert!(rt; *found == wanted);
    }
    for (ino, wanted) in [(1, 0), (2, 2), (3, 1), (4, 0), (16, 0)] {
        assert!(rt; known.counts.get(ino) == Some(&wanted));
    }
    for ino in 0..20 {
        assert!(rt; known.walked.has(ino) == (ino == 2));
    }
    assert!(rt; store.puts == 0);
    Ok(())
}

// The mode of an inode that stands in the store.
fn mode_of(reader: &mut InodeReader, store: &mut Memory, ino: u32) -> Option<u16> {
    if inode_sector_of(ino) >= store.sectors() {
        return None;
    }
    match reader.read(store, ino) {
        Ok(inode) => Some(inode.mode),
        Err(_) => None,
    }
}

#[test]
fn inodes_are_read_in_any_order(rt: HostRuntime) -> Result<(), Fail> {
    let mut sectors = test_volume(rt.alloc(), FRESH)?;
    sectors.truncate(64);
    let mut store = Memory::new(rt.alloc(), &sectors)?;
    let mut reader = InodeReader::new();
    for (ino, mode) in [(3, 0o100_644), (2, 0o040_755), (9, 0), (3, 0o100_644)] {
        assert!(rt; mode_of(&mut reader, &mut store, ino) == Some(mode));
    }
    Ok(())
}
