//! Numbers of a small volume that was worked by hand.

use super::*;
use stable::NoMemory;
use std::alloc::Global;
use std::test::Fail;
use store_mem::Memory;
use v7_layout::{Inode, Record};

#[test]
fn inodes_stand_eight_to_a_sector(rt: HostRuntime) -> Result<(), Fail> {
    assert!(rt; inode_sector_of(3) == 2);
    assert!(rt; inode_offset_of(3) == 128);
    assert!(rt; inode_sector_of(9) == 3);
    assert!(rt; inode_offset_of(9) == 0);
    Ok(())
}

// Ten direct addresses in the inode, and 128 of four bytes in its single indirect block, sector 2.
fn with_indirect_block(alloc: Global) -> Result<(Memory, Inode), NoMemory> {
    let mut sectors = [[0; 512]; 4];
    sectors[2][0] = 1;
    sectors[2][7] = 255;
    sectors[2][508] = 3;
    let mut inode = Inode::read(&[0; 64]);
    inode.direct[0] = 3;
    inode.direct[1] = 4;
    inode.direct[9] = 2;
    inode.single = 2;
    Ok((Memory::new(alloc, &sectors)?, inode))
}

#[test]
fn addresses_stand_in_the_inode_and_in_its_indirect_block(rt: HostRuntime) -> Result<(), Fail> {
    let (mut store, inode) = with_indirect_block(rt.alloc()).map_err(|_| "memory")?;
    // Sector 1 of the body and sector 11 have addresses past a store of four sectors.
    for (index, sector) in [
        (0, 3),
        (1, 0),
        (2, 0),
        (9, 2),
        (10, 1),
        (11, 0),
        (137, 3),
        (138, 0),
    ] {
        assert!(rt; sector_of(&mut store, &inode, index) == Ok(sector));
    }
    Ok(())
}

#[test]
fn the_places_of_an_inode_are_read_as_they_are_stored(rt: HostRuntime) -> Result<(), Fail> {
    let (mut store, mut inode) = with_indirect_block(rt.alloc()).map_err(|_| "memory")?;
    let free = read_places(&mut store, &inode);
    assert!(rt; free == Ok([0; 140]));
    inode.mode = 0o100_644;
    inode.double = 9;
    let places = read_places(&mut store, &inode).map_err(|_| "failed")?;
    for (place, block) in [
        (0, 3),
        (1, 4),
        (2, 0),
        (9, 2),
        (10, 2),
        (11, 1),
        (12, 0xff00_0000),
        (138, 3),
        (139, 9),
    ] {
        assert!(rt; places.get(place) == Some(&block), "place {place}");
    }
    inode.single = 4;
    let places = read_places(&mut store, &inode).map_err(|_| "failed")?;
    assert!(rt; places[10] == 4 && places[11] == 0 && places[138] == 0);
    Ok(())
}
