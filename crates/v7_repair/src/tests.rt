//! The test volume with other bytes here and there.

use crate::repair;
use std::alloc::Global;
use std::test::Fail;
use store_mem::Memory;
use v7_damage::{Damage, RepairFault};
use v7_inspect::{Seen, inspect};
use volume_mem::{FRESH, test_volume};

// Another byte: its sector, its place there, and what it is.
type Patch = (usize, usize, u8);

const STRONG: Seen = Seen {
    strong: true,
    clean: true,
    files: 1,
    directories: 1,
    links: 0,
    used: 3,
    free: 57,
};

// Puts the bytes into the sectors, but those past their ends.
fn patch(sectors: &mut Vec<[u8; 512]>, patches: &[Patch]) {
    for (sector, at, byte) in patches {
        if let Some(bytes) = sectors.get_mut(*sector) {
            if let Some(old) = bytes.get_mut(*at) {
                *old = *byte;
            }
        }
    }
}

// The test volume with these bytes.
fn patched(alloc: Global, patches: &[Patch]) -> Result<Memory, Fail> {
    let mut sectors = test_volume(alloc, FRESH)?;
    patch(&mut sectors, patches);
    // a store asks that its sectors can be numbered
    sectors.truncate(64);
    let store = Memory::new(alloc, &sectors)?;
    Ok(store)
}

// What is seen after a repair that makes these puts. A second one makes none.
fn repaired(alloc: Global, patches: &[Patch], order: &[u32]) -> Result<Option<Seen>, Fail> {
    let mut store = patched(alloc, patches)?;
    let Ok(first) = repair(alloc, &mut store) else {
        return Ok(None);
    };
    let Ok(second) = repair(alloc, &mut store) else {
        return Ok(None);
    };
    let once = first.repaired.changed as usize == order.len()
        && store.puts == order.len() as u64
        && store.order.starts_with(order);
    let same = second.repaired.changed == 0 && second.repaired.seen == first.repaired.seen;
    if once && same {
        return Ok(Some(first.repaired.seen));
    }
    Ok(None)
}

/// Nothing; a stored count of 5 links; a volume that was not stopped; a name `f` that is empty again; an address past the size, and one in a block of
/// addresses, of a file of eleven sectors; a block of addresses without any.
#[test]
fn what_is_to_be_mended_is_put_once(rt: HostRuntime) -> Result<(), Fail> {
    let rows: [(&[Patch], &[u32], Seen); 7] = [
        (&[], &[], STRONG),
        (&[(2, 130, 5)], &[2], STRONG),
        (
            &[(1, 412, 1)],
            &[],
            Seen {
                clean: false,
                ..STRONG
            },
        ),
        (
            &[(4, 32, 0)],
            &[2],
            Seen {
                files: 0,
                used: 1,
                free: 59,
                ..STRONG
            },
        ),
        (&[(2, 146, 9)], &[2], STRONG),
        (
            &[(2, 137, 0x16), (2, 170, 7), (7, 0, 8), (7, 4, 9)],
            &[7],
            Seen {
                used: 5,
                free: 55,
                ..STRONG
            },
        ),
        (&[(2, 170, 7)], &[2], STRONG),
    ];
    for (patches, order, wanted) in rows {
        assert!(rt; repaired(rt.alloc(), patches, order)? == Some(wanted));
    }
    Ok(())
}

#[test]
fn a_stored_link_count_becomes_the_counted_one(rt: HostRuntime) -> Result<(), Fail> {
    let mut store = patched(rt.alloc(), &[(2, 130, 5)])?;
    assert!(rt; repair(rt.alloc(), &mut store).is_ok());
    let wanted = patched(rt.alloc(), &[])?;
    assert!(rt; store.sectors.as_slice() == wanted.sectors.as_slice());
    Ok(())
}

// Whether these blocks and these i-numbers, and no others, are free after a repair.
fn is_free(alloc: Global, patches: &[Patch], used: &[u32], numbers: &[u32]) -> Result<bool, Fail> {
    let mut store = patched(alloc, patches)?;
    let Ok(mended) = repair(alloc, &mut store) else {
        return Ok(false);
    };
    for block in 0..70 {
        let free = (7..64).contains(&block) && !used.contains(&block);
        if mended.sets.blocks.has(block) != free {
            return Ok(false);
        }
    }
    for number in 0..20 {
        if mended.sets.inodes.has(number) != numbers.contains(&number) {
            return Ok(false);
        }
    }
    Ok(true)
}

/// The test volume; a file of eleven sectors, the last by a block of addresses; inode 10, which nothing names and which has block 9; generations of inode 9
/// that are the last but one and the last.
#[test]
fn what_nothing_needs_is_free(rt: HostRuntime) -> Result<(), Fail> {
    let all = [4, 5, 6, 7, 8, 9, 10, 11, 12, 13, 14, 15, 16];
    let but_one = [4, 5, 6, 7, 8, 10, 11, 12, 13, 14, 15, 16];
    let rows: [(&[Patch], &[u32], &[u32]); 5] = [
        (&[], &[], &all),
        (&[(2, 137, 0x16), (2, 170, 7), (7, 0, 8)], &[7, 8], &all),
        (&[(3, 65, 0x81), (3, 73, 2), (3, 76, 9)], &[], &all),
        (
            &[(3, 48, 254), (3, 49, 255), (3, 50, 255), (3, 51, 255)],
            &[],
            &all,
        ),
        (
            &[(3, 48, 255), (3, 49, 255), (3, 50, 255), (3, 51, 255)],
            &[],
            &but_one,
        ),
    ];
    for (patches, used, numbers) in rows {
        assert!(rt; is_free(rt.alloc(), patches, used, numbers)?);
    }
    Ok(())
}

#[test]
fn nothing_of_a_damaged_volume_is_put(rt: HostRuntime) -> Result<(), Fail> {
    let patches = [(2, 130, 5), (4, 32, 17)];
    let mut store = patched(rt.alloc(), &patches)?;
    let Err(fault) = repair(rt.alloc(), &mut store) else {
        assert!(rt; false);
        return Ok(());
    };
    let kind = Damage::Slot;
    assert!(rt; fault == RepairFault::Damaged { sector: 4, kind });
    assert!(rt; store.puts == 0);
    Ok(())
}

/// A stored count of 5 links in one sector, and in the next an inode that nothing names.
#[test]
fn a_repair_that_fails_is_gone_on_with(rt: HostRuntime) -> Result<(), Fail> {
    let patches = [(2, 130, 5), (3, 449, 0x81)];
    for (failing, left) in [(1, 2), (2, 1)] {
        let mut store = patched(rt.alloc(), &patches)?;
        store.failing = failing;
        let Err(fault) = repair(rt.alloc(), &mut store) else {
            assert!(rt; false);
            return Ok(());
        };
        assert!(rt; fault == RepairFault::Failed && store.faults == 1);
        let Ok(mended) = repair(rt.alloc(), &mut store) else {
            assert!(rt; false);
            return Ok(());
        };
        assert!(rt; mended.repaired.changed == left);
        assert!(rt; mended.repaired.seen == STRONG);
        let wanted = patched(rt.alloc(), &[])?;
        assert!(rt; store.sectors.as_slice() == wanted.sectors.as_slice());
    }
    Ok(())
}

/// A file of eleven sectors, the last by the block of addresses 7, which has an address past the size too; its stored count is 5. In the next sector
/// an inode that nothing names, so that it is passed over where the named ones are judged.
#[test]
fn no_sector_is_read_often(rt: HostRuntime) -> Result<(), Fail> {
    let patches = [
        (2, 130, 5),
        (2, 137, 0x16),
        (2, 170, 7),
        (7, 0, 8),
        (7, 4, 9),
        (3, 449, 0x81),
    ];
    let mut store = patched(rt.alloc(), &patches)?;
    assert!(rt; inspect(rt.alloc(), &mut store).is_ok());
    let mut inspected = [0; 64];
    for (sector, times) in [(1, 1), (2, 1), (3, 1), (4, 1), (7, 1)] {
        inspected[sector] = times;
    }
    assert!(rt; store.reads == inspected);
    store.reads = [0; 64];
    assert!(rt; repair(rt.alloc(), &mut store).is_ok());
    assert!(rt; store.order.starts_with(&[7, 2, 3]));
    let mut most = [0; 64];
    most[1] = 1;
    most[2] = 5;
    most[3] = 4;
    most[4] = 1;
    most[7] = 4;
    assert!(rt; store.reads == most);
    Ok(())
}
