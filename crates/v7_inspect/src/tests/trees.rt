//! Directories in directories.

use crate::tests::patched::{Patch, inspected};
use crate::{Damage, RepairFault, Seen};
use stable::NoMemory;
use std::alloc::Global;
use std::test::Fail;

// Root's fourth slot names directory 4, of block 7, whose third slot names directory 5, of block 8. The root has three links by now, and 4 too.
const TWO_LEVELS: [Patch; 26] = [
    (2, 66, 3),
    (2, 72, 64),
    (4, 48, 4),
    (4, 50, b'd'),
    (2, 192, 0xed),
    (2, 193, 0x41),
    (2, 194, 3),
    (2, 200, 48),
    (2, 204, 7),
    (7, 0, 4),
    (7, 2, b'.'),
    (7, 16, 2),
    (7, 18, b'.'),
    (7, 19, b'.'),
    (7, 32, 5),
    (7, 34, b'e'),
    (2, 256, 0xed),
    (2, 257, 0x41),
    (2, 258, 2),
    (2, 264, 32),
    (2, 268, 8),
    (8, 0, 5),
    (8, 2, b'.'),
    (8, 16, 4),
    (8, 18, b'.'),
    (8, 19, b'.'),
];

#[test]
fn a_directory_two_levels_down_is_walked(rt: HostRuntime) -> Result<(), Fail> {
    let seen = inspected(rt.alloc(), &TWO_LEVELS)?;
    let wanted = Seen {
        strong: true,
        clean: true,
        files: 1,
        directories: 3,
        links: 0,
        used: 5,
        free: 55,
    };
    assert!(rt; seen == Ok(wanted));
    Ok(())
}

/// A slot of 4 with an empty name, before a `..` of 5 that leads elsewhere; that `..` alone; a second name of 5, in 4; and a `.` of 4 that leads
/// elsewhere, before a wrong slot of 4.
#[test]
fn the_first_damage_of_directories_is_told(rt: HostRuntime) -> Result<(), Fail> {
    let rows: [(&[Patch], u32, Damage); 4] = [
        (&[(7, 34, 0), (8, 16, 2)], 7, Damage::Slot),
        (&[(8, 16, 2)], 2, Damage::Dots),
        (&[(2, 200, 64), (7, 48, 5), (7, 50, b'x')], 7, Damage::Slot),
        (&[(7, 34, 0), (7, 0, 5)], 2, Damage::Dots),
    ];
    for (patches, sector, kind) in rows {
        let mut all = Vec::new(rt.alloc());
        all.extend_from_slice(&TWO_LEVELS)?;
        all.extend_from_slice(patches)?;
        let seen = inspected(rt.alloc(), &all)?;
        assert!(rt; seen == Err(RepairFault::Damaged { sector, kind }));
    }
    Ok(())
}

// Puts these bytes from a place of a sector on.
fn put(patches: &mut Vec<Patch>, sector: usize, at: usize, bytes: &[u8]) -> Result<(), NoMemory> {
    for (index, byte) in bytes.iter().enumerate() {
        patches.push((sector, at.wrapping_add(index), *byte))?;
    }
    Ok(())
}

// Directory i, whose parent and only directory have these numbers, 0 for none.
fn directory(patches: &mut Vec<Patch>, ino: u8, parent: u8, child: u8) -> Result<(), NoMemory> {
    let before = ino.saturating_sub(1) as usize;
    let block = ino.saturating_add(3);
    let (links, size) = if child == 0 { (2, 32) } else { (3, 48) };
    put(
        patches,
        2 + before / 8,
        64 * (before % 8),
        &[0xed, 0x41, links, 0, 0, 0, 0, 0, size, 0, 0, 0, block],
    )?;
    put(patches, block as usize, 0, &[ino, 0, b'.'])?;
    put(patches, block as usize, 16, &[parent, 0, b'.', b'.'])?;
    put(patches, block as usize, 32, &[child, 0, b'd'])
}

/// The root names 16, which names 15, and so on down to 4: each is found by one with a higher number.
#[test]
fn a_chain_of_falling_numbers_is_walked(rt: HostRuntime) -> Result<(), Fail> {
    let mut patches = Vec::new(rt.alloc());
    patches.extend_from_slice(&[(2, 66, 3), (2, 72, 64), (4, 48, 16), (4, 50, b'd')])?;
    directory(&mut patches, 16, 2, 15)?;
    for ino in 5..16 {
        directory(&mut patches, ino, ino + 1, ino - 1)?;
    }
    directory(&mut patches, 4, 5, 0)?;
    let seen = inspected(rt.alloc(), &patches)?;
    let wanted = Seen {
        strong: true,
        clean: true,
        files: 1,
        directories: 14,
        links: 0,
        used: 16,
        free: 44,
    };
    assert!(rt; seen == Ok(wanted));
    Ok(())
}
