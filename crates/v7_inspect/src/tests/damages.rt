//! One damage a row, and the first of two.

use crate::tests::patched::{Patch, inspected};
use crate::{Damage, RepairFault, Seen};
use std::alloc::Global;
use std::test::Fail;

const STRONG: Seen = Seen {
    strong: true,
    clean: true,
    files: 1,
    directories: 1,
    links: 0,
    used: 3,
    free: 57,
};

/// What is seen with other bytes: a stored count of 5 links; a volume that was not stopped; a file of one sector with two; one of eleven sectors,
/// the last by a block of addresses; a block of addresses without any; an inode 4 that nothing names; a name `f` that is empty again.
#[test]
fn a_volume_that_can_be_mended_is_seen(rt: HostRuntime) -> Result<(), Fail> {
    let weak = Seen {
        strong: false,
        ..STRONG
    };
    let rows: [(&[Patch], Seen); 8] = [
        (&[], STRONG),
        (&[(2, 130, 5)], weak),
        (
            &[(1, 412, 1)],
            Seen {
                clean: false,
                ..STRONG
            },
        ),
        (
            &[(2, 137, 2)],
            Seen {
                used: 2,
                free: 58,
                ..weak
            },
        ),
        (
            &[(2, 137, 0x16), (2, 170, 7), (7, 0, 8)],
            Seen {
                used: 5,
                free: 55,
                ..STRONG
            },
        ),
        (&[(2, 170, 7)], weak),
        (&[(2, 193, 0x81)], weak),
        (
            &[(4, 32, 0)],
            Seen {
                files: 0,
                used: 1,
                free: 59,
                ..weak
            },
        ),
    ];
    for (patches, wanted) in rows {
        let seen = inspected(rt.alloc(), patches)?;
        assert!(rt; seen == Ok(wanted));
    }
    Ok(())
}

// The first damage, as the test of it is told.
fn told(alloc: Global, patches: &[Patch], sector: u32, kind: Damage) -> Result<bool, Fail> {
    Ok(inspected(alloc, patches)? == Err(RepairFault::Damaged { sector, kind }))
}

/// In the order of the tests: the super-block's mark and its first data block; inode 1 in use and the root free; the sizes of file 3 and of the
/// root; the first address of file 3 below and past the data; two places with one address, one of them in a block of addresses, and in one inode,
/// and in two; `..` of the root that leads to file 3, a `.` that doesn't lead to the root; a last slot that names no inode of the volume, the root, nothing
/// by name, and a free inode.
#[test]
fn the_test_that_fails_is_told(rt: HostRuntime) -> Result<(), Fail> {
    let rows: [(&[Patch], u32, Damage); 17] = [
        (&[(1, 440, 0)], 1, Damage::Sizes),
        (&[(1, 0, 2)], 1, Damage::Sizes),
        (&[(2, 1, 0x81)], 2, Damage::Kind),
        (&[(2, 64, 0), (2, 65, 0)], 2, Damage::Kind),
        (
            &[(2, 136, 255), (2, 137, 255), (2, 138, 255), (2, 139, 255)],
            2,
            Damage::Length,
        ),
        (&[(2, 72, 40)], 2, Damage::Length),
        (&[(2, 140, 3)], 2, Damage::Address),
        (&[(2, 140, 64)], 2, Damage::Address),
        (&[(2, 170, 7), (7, 0, 5)], 2, Damage::Shared),
        (&[(2, 143, 5)], 2, Damage::Shared),
        (&[(2, 140, 4)], 2, Damage::Shared),
        (&[(4, 16, 3)], 2, Damage::Dots),
        (&[(4, 0, 3)], 2, Damage::Dots),
        (&[(4, 32, 17)], 4, Damage::Slot),
        (&[(4, 32, 2)], 4, Damage::Slot),
        (&[(4, 34, 0)], 4, Damage::Slot),
        (&[(4, 32, 9)], 4, Damage::Slot),
    ];
    for (patches, sector, kind) in rows {
        assert!(rt; told(rt.alloc(), patches, sector, kind)?);
    }
    Ok(())
}

#[test]
fn of_two_damages_the_first_is_told(rt: HostRuntime) -> Result<(), Fail> {
    let rows: [(&[Patch], u32, Damage); 4] = [
        (&[(4, 32, 17), (1, 440, 0)], 1, Damage::Sizes),
        (
            &[(2, 140, 64), (2, 136, 255), (2, 138, 255)],
            2,
            Damage::Length,
        ),
        (&[(4, 32, 17), (2, 143, 5)], 2, Damage::Shared),
        (&[(4, 32, 17), (4, 16, 3)], 2, Damage::Dots),
    ];
    for (patches, sector, kind) in rows {
        assert!(rt; told(rt.alloc(), patches, sector, kind)?);
    }
    Ok(())
}
