//! Volumes with more names, or other files, than the test volume.
ghost use Rattle.v7_layout.specs.Written.{AddressesFit};

use crate::volumes::{Patch, patched};
use std::alloc::Global;
use std::test::Fail;
use v7_layout::Inode;
use volume_mem::{FRESH, Shape, file, sectors_of, test_volume};

/// The volume whose root has 32 names in use, all that its sector holds, of which 30 lead to file 3; past its sectors, which end before `past`,
/// nothing is to be had.
pub fn full_disk(alloc: Global, past: u8) -> Result<Vec<[u8; 512]>, Fail> {
    let mut patches: Vec<Patch> = Vec::new(alloc);
    for slot in 3..32 {
        patches.push((4, 16 * slot, 3))?;
        patches.push((4, 16 * slot + 2, b'A' + slot as u8))?;
    }
    let disk = patched(test_volume(alloc, FRESH)?, &patches);
    // the size of the root is 512, file 3 has 30 links, and the volume ends there
    Ok(patched(disk, &[(2, 72, 0), (2, 73, 2), (2, 130, 30), (1, 2, past)]))
}

/// The volume whose file 3 has a second name, `g`.
pub fn linked_disk(alloc: Global) -> Result<Vec<[u8; 512]>, Fail> {
    Ok(patched(
        test_volume(alloc, FRESH)?,
        &[(2, 72, 64), (2, 130, 2), (4, 48, 3), (4, 50, b'g')],
    ))
}

/// The volume whose file 3 has this generation.
pub fn aged_disk(alloc: Global, generation: u32) -> Result<Vec<[u8; 512]>, Fail> {
    let [first, second, third, fourth] = generation.to_le_bytes();
    Ok(patched(
        test_volume(alloc, FRESH)?,
        &[
            (2, 176, first),
            (2, 177, second),
            (2, 178, third),
            (2, 179, fourth),
        ],
    ))
}

// A file of 12 sectors: 5 to 14 by its inode, 15 and 16 by its indirect block, sector 17.
fn long_file() -> Inode
    ensures { AddressesFit result }
{
    Inode {
        size: 6144,
        direct: [5, 6, 7, 8, 9, 10, 11, 12, 13, 14],
        single: 17,
        ..file(FRESH)
    }
}

/// The volume whose file 3 has an indirect block: it takes blocks 5 to 17.
pub fn long_disk(alloc: Global) -> Result<Vec<[u8; 512]>, Fail> {
    let mut body = [[b'a'; 512]; 13];
    body[12] = [0; 512];
    body[12][0] = 15;
    body[12][4] = 16;
    Ok(sectors_of(alloc, 0, &long_file(), &body)?)
}

/// The volume whose file 3 is an empty directory: it takes block 5.
pub fn nested_disk(alloc: Global) -> Result<Vec<[u8; 512]>, Fail> {
    let shape = Shape {
        mode: 0o040_755,
        ..FRESH
    };
    let disk = patched(
        test_volume(alloc, shape)?,
        &[
            (2, 66, 3),
            (2, 130, 2),
            (2, 136, 32),
            (2, 137, 0),
            (2, 143, 0),
        ],
    );
    let mut empty: Vec<Patch> = Vec::new(alloc);
    for place in 0..512 {
        empty.push((5, place, 0))?;
    }
    let disk = patched(disk, &empty);
    // its slots `.` and `..`
    Ok(patched(
        disk,
        &[
            (5, 0, 3),
            (5, 2, b'.'),
            (5, 16, 2),
            (5, 18, b'.'),
            (5, 19, b'.'),
        ],
    ))
}
