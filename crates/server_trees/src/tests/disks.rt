//! Volumes with directories in the root.

use server_runs::volumes::{Patch, patched};
use std::alloc::Global;
use std::test::Fail;
use volume_mem::{FRESH, test_volume};

// These bytes from there on in a sector.
fn add_bytes(
    patches: &mut Vec<Patch>,
    sector: usize,
    begin: usize,
    bytes: &[u8],
) -> Result<(), Fail> {
    for (place, byte) in bytes.iter().enumerate() {
        patches.push((sector, begin.saturating_add(place), *byte))?;
    }
    Ok(())
}

// These bytes from there on in an inode.
fn add_to_inode(
    patches: &mut Vec<Patch>,
    number: usize,
    at: usize,
    bytes: &[u8],
) -> Result<(), Fail> {
    let before = number.saturating_sub(1);
    let begin = (before % 8 * 64).saturating_add(at);
    add_bytes(patches, (before / 8).saturating_add(2), begin, bytes)
}

// An inode of user 0, of generation 1 and times 1000, whose first sector is this block; in place of what stands there.
fn add_inode(
    patches: &mut Vec<Patch>,
    number: usize,
    mode: u16,
    links: u16,
    size: u32,
    block: u16,
) -> Result<(), Fail> {
    add_to_inode(patches, number, 0, &[0; 64])?;
    add_to_inode(patches, number, 0, &mode.to_le_bytes())?;
    add_to_inode(patches, number, 2, &links.to_le_bytes())?;
    add_to_inode(patches, number, 8, &size.to_le_bytes())?;
    add_to_inode(patches, number, 12, &block.to_le_bytes())?;
    add_to_inode(patches, number, 48, &[1])?;
    for at in [52, 56, 60] {
        add_to_inode(patches, number, at, &[0xe8, 3])?;
    }
    Ok(())
}

// A slot of this block that names an inode.
fn add_slot(
    patches: &mut Vec<Patch>,
    block: usize,
    slot: usize,
    number: u8,
    name: &[u8],
) -> Result<(), Fail> {
    let begin = slot.saturating_mul(16);
    add_bytes(patches, block, begin, &[number])?;
    add_bytes(patches, block, begin.saturating_add(2), name)
}

// The slots `.` and `..` of a directory in the root.
fn add_dots(patches: &mut Vec<Patch>, block: usize, number: u8) -> Result<(), Fail> {
    add_slot(patches, block, 0, number, b".")?;
    add_slot(patches, block, 1, 2, b"..")
}

/// The volume whose root has an empty slot past that of `f`, file 3.
pub fn spare_disk(alloc: Global) -> Result<Vec<[u8; 512]>, Fail> {
    Ok(patched(test_volume(alloc, FRESH)?, &[(2, 72, 64)]))
}

/// The volume whose root has the directories 3, `p`, and 4, `q`. `p` has `a`, file 5, and `q` has `b`, file 6, of 512 bytes each. Blocks 4 to 8 are
/// in use.
pub fn pair_disk(alloc: Global) -> Result<Vec<[u8; 512]>, Fail> {
    let mut patches: Vec<Patch> = Vec::new(alloc);
    add_inode(&mut patches, 2, 0o040_755, 4, 64, 4)?;
    add_inode(&mut patches, 3, 0o040_755, 2, 48, 7)?;
    add_inode(&mut patches, 4, 0o040_755, 2, 48, 8)?;
    add_inode(&mut patches, 5, 0o100_644, 1, 512, 5)?;
    add_inode(&mut patches, 6, 0o100_644, 1, 512, 6)?;
    add_slot(&mut patches, 4, 2, 3, b"p")?;
    add_slot(&mut patches, 4, 3, 4, b"q")?;
    add_dots(&mut patches, 7, 3)?;
    add_slot(&mut patches, 7, 2, 5, b"a")?;
    add_dots(&mut patches, 8, 4)?;
    add_slot(&mut patches, 8, 2, 6, b"b")?;
    Ok(patched(test_volume(alloc, FRESH)?, &patches))
}

// The slots `d`, of directory 3, and `f`, of file 4 with so many links, in the root.
fn add_root(patches: &mut Vec<Patch>, links: u16) -> Result<(), Fail> {
    add_inode(patches, 2, 0o040_755, 3, 64, 4)?;
    add_inode(patches, 4, 0o100_644, links, 512, 5)?;
    add_slot(patches, 4, 2, 3, b"d")?;
    add_slot(patches, 4, 3, 4, b"f")
}

/// The volume whose root has directory 3, `d`, and file 4, `f`. `d` has one sector, block 7, whose 30 slots past its first two name file 4 as well.
/// Blocks 4, 5 and 7 are in use.
pub fn full_directory_disk(alloc: Global) -> Result<Vec<[u8; 512]>, Fail> {
    let mut patches: Vec<Patch> = Vec::new(alloc);
    add_root(&mut patches, 31)?;
    add_inode(&mut patches, 3, 0o040_755, 2, 512, 7)?;
    add_dots(&mut patches, 7, 3)?;
    for slot in 2..32 {
        add_slot(&mut patches, 7, slot, 4, &[b'A' + slot as u8])?;
    }
    Ok(patched(test_volume(alloc, FRESH)?, &patches))
}

/// The name of 8 bytes in a slot past the first two of the listed directory: `entry.` and the slot's number, below 100, in two digits.
pub fn listed_name(slot: usize) -> [u8; 8] {
    let mut name = *b"entry.00";
    name[6] = b'0' + (slot / 10 % 10) as u8;
    name[7] = b'0' + (slot % 10) as u8;
    name
}

/// The volume whose root has directory 3, `d`, and file 4, `f`. `d` has the blocks 7 and 8, with 40 names of 8 bytes that lead to file 4, past its
/// first two.
pub fn listed_disk(alloc: Global) -> Result<Vec<[u8; 512]>, Fail> {
    let mut patches: Vec<Patch> = Vec::new(alloc);
    add_root(&mut patches, 41)?;
    add_inode(&mut patches, 3, 0o040_755, 2, 672, 7)?;
    // the second address
    add_to_inode(&mut patches, 3, 15, &[8])?;
    add_dots(&mut patches, 7, 3)?;
    for slot in 2..42 {
        add_slot(
            &mut patches,
            7 + slot / 32,
            slot % 32,
            4,
            &listed_name(slot),
        )?;
    }
    Ok(patched(test_volume(alloc, FRESH)?, &patches))
}

// ---- directories of 138 sectors, the most that there can be, which have 4,416 slots

// A directory in the root whose sectors are the blocks from this one on, but for the block of addresses after the first ten.
fn add_longest(patches: &mut Vec<Patch>, number: u8, first: u16) -> Result<(), Fail> {
    let inode = number as usize;
    add_inode(patches, inode, 0o040_755, 2, 70656, first)?;
    for place in 0..11u16 {
        let block = first.saturating_add(place).to_le_bytes();
        add_to_inode(patches, inode, 12 + 3 * place as usize, &block)?;
    }
    add_dots(patches, first as usize, number)?;
    add_rest(patches, first.saturating_add(10))
}

// The block of addresses, which leads to the 128 blocks past it.
fn add_rest(patches: &mut Vec<Patch>, single: u16) -> Result<(), Fail> {
    for place in 0..128u16 {
        let block = single.saturating_add(place).saturating_add(1);
        let bytes = block.to_le_bytes();
        add_bytes(patches, single as usize, 4 * place as usize, &bytes)?;
    }
    Ok(())
}

// The block of a sector of such a directory.
fn block_of(first: u16, index: usize) -> usize {
    let block = (first as usize).saturating_add(index);
    if index < 10 {
        return block;
    }
    block.saturating_add(1)
}

// So many slots past the first two of such a directory, all of them at the most, name file 3 as `n`.
fn add_names(patches: &mut Vec<Patch>, first: u16, count: usize) -> Result<(), Fail> {
    for slot in (2..4416usize).take(count) {
        add_slot(patches, block_of(first, slot / 32), slot % 32, 3, b"n")?;
    }
    Ok(())
}

// The first sectors of a volume of so many, with 32 inodes that are free.
fn free_disk(alloc: Global, size: u16) -> Result<Vec<[u8; 512]>, Fail> {
    let mut patches: Vec<Patch> = Vec::new(alloc);
    add_bytes(&mut patches, 1, 0, &[6])?;
    add_bytes(&mut patches, 1, 2, &size.to_le_bytes())?;
    let mut disk = test_volume(alloc, FRESH)?;
    disk.truncate(2);
    for _ in 2..size {
        disk.push([0; 512])?;
    }
    Ok(patched(disk, &patches))
}

/// The volume of 32 inodes whose root, block 6, has file 3, `f`, of 0 bytes, and so many directories, from number 4 on, `A`, `B` and so forth. The
/// first slots past `.` and `..` of these name file 3 as `n`, as many as give it so many links; the others are empty. Five blocks are free.
pub fn crowded_disk(alloc: Global, directories: u8, links: u16) -> Result<Vec<[u8; 512]>, Fail> {
    let mut patches: Vec<Patch> = Vec::new(alloc);
    let parents = 2 + directories as u16;
    add_inode(&mut patches, 2, 0o040_755, parents, 512, 6)?;
    add_inode(&mut patches, 3, 0o100_644, links, 0, 0)?;
    add_dots(&mut patches, 6, 2)?;
    add_slot(&mut patches, 6, 2, 3, b"f")?;
    let mut left = links.saturating_sub(1) as usize;
    for place in 0..directories {
        let number = place.saturating_add(4);
        let name = [b'A'.saturating_add(place)];
        let first = 7 + 139 * place as u16;
        add_slot(&mut patches, 6, 3 + place as usize, number, &name)?;
        add_longest(&mut patches, number, first)?;
        add_names(&mut patches, first, left)?;
        left = left.saturating_sub(4414);
    }
    let disk = free_disk(alloc, 12 + 139 * directories as u16)?;
    Ok(patched(disk, &patches))
}
