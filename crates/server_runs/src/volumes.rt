//! Rigs with volumes, and what is on them.

use rig_mem::MemRig;
use std::alloc::Global;
use std::test::Fail;
use v7_layout::{Chain, Record, Super};
use volume_mem::{Shape, test_volume};

/// Another byte: its sector, its place there, and what it is.
pub type Patch = (usize, usize, u8);

/// A rig with this disk, of 4,096 sectors at the most.
pub fn rig_with(alloc: Global, disk: Vec<[u8; 512]>) -> MemRig {
    let mut disk = disk;
    // a rig asks that its sectors can be numbered
    disk.truncate(4096);
    MemRig::with_disk(alloc, disk)
}

pub fn rig(alloc: Global, shape: Shape) -> Result<MemRig, Fail> {
    Ok(rig_with(alloc, test_volume(alloc, shape)?))
}

/// The rig, whose call of that number fails, or is cut where `cuts` is true, and leaves the newer state or the older.
pub fn with_fault(rig: MemRig, number: u64, newer: bool, cuts: bool) -> Result<MemRig, Fail> {
    let mut rig = rig;
    if cuts {
        rig.stop_at(number, newer);
        return Ok(rig);
    }
    rig.fail(number, newer)?;
    Ok(rig)
}

/// The disk with these bytes, but those past its sectors' ends.
pub fn patched(disk: Vec<[u8; 512]>, patches: &[Patch]) -> Vec<[u8; 512]> {
    let mut disk = disk;
    for (sector, at, byte) in patches {
        if let Some(bytes) = disk.get_mut(*sector) {
            if let Some(old) = bytes.get_mut(*at) {
                *old = *byte;
            }
        }
    }
    disk
}

/// Whether this is the disk of the rig.
pub fn has_disk(rig: &MemRig, wanted: &[[u8; 512]]) -> bool {
    if rig.disk().len() != wanted.len() {
        return false;
    }
    for (found, wanted) in rig.disk().iter().zip(wanted.iter()) {
        if found != wanted {
            return false;
        }
    }
    true
}

/// Whether the sectors of the rig's inodes, directories and files, which end before this one, are those of this disk. The super-block and the
/// blocks that are free change when a volume is opened and stopped.
pub fn has_files(rig: &MemRig, wanted: &[[u8; 512]], past: usize) -> bool {
    let sectors = rig.disk().iter().zip(wanted.iter()).take(past).skip(2);
    for (found, wanted) in sectors {
        if found != wanted {
            return false;
        }
    }
    rig.disk().len() == wanted.len()
}

/// Whether the rig has the files of such a volume.
pub fn is_volume(alloc: Global, rig: &MemRig, shape: Shape) -> Result<bool, Fail> {
    Ok(has_files(rig, &test_volume(alloc, shape)?, 7))
}

/// The super-block on the disk of a rig.
pub fn super_of(rig: &MemRig) -> Option<Super> {
    match rig.disk() {
        [_, sector, ..] => Some(Super::read(sector)),
        _ => None,
    }
}

// A list of free blocks from one on down, so many of them, as a chain record holds it.
fn falling(first: u32, count: usize) -> [u32; 50] {
    let mut blocks = [0; 50];
    for (place, block) in blocks.iter_mut().take(count).enumerate() {
        *block = first.saturating_sub(place as u32);
    }
    blocks
}

/// Whether the volume was stopped cleanly at that second, with a free chain of the blocks from this one, 5 to 14, to 63, of which those from 15 on
/// stand in the record in block 14, and with so many free i-numbers.
pub fn has_chain(rig: &MemRig, second: u32, lowest: u32, inodes: u16) -> bool {
    let Some(super_block) = super_of(rig) else {
        return false;
    };
    let Some(sector) = rig.disk().get(14) else {
        return false;
    };
    let mut rest = falling(64, 50);
    rest[0] = 0;
    let chain = Chain::read(sector);
    let listed = 15u32.saturating_sub(lowest);
    super_block.s_fmod == 0
        && super_block.s_time == second
        && super_block.s_fpack == *b"VOLA00"
        && super_block.s_tfree == 64u32.saturating_sub(lowest)
        && super_block.s_tinode == inodes
        && super_block.s_nfree as u32 == listed
        && super_block.s_free == falling(14, listed as usize)
        && chain.s_nfree == 50
        && chain.s_free == rest
}

/// Whether the volume was stopped cleanly at that second, with the free chain of the test volume, of blocks 7 to 63.
pub fn is_stopped(rig: &MemRig, second: u32) -> bool {
    has_chain(rig, second, 7, 13)
}
