// The sectors of the volume.

ghost use Rattle.v7_layout.specs.Written.{AddressesFit};

use crate::records::{ROOT, Shape, file, super_block};
use stable::NoMemory;
use std::alloc::Global;
use v7_layout::{Inode, Record};

// The slots `.`, `..` and `f`.
fn directory() -> [u8; 512] {
    let mut root = [0; 512];
    root[0] = 2;
    root[2] = b'.';
    root[16] = 2;
    root[18] = b'.';
    root[19] = b'.';
    root[32] = 3;
    root[34] = b'f';
    root
}

/// 64 sectors: the root, file 3 with its name `f`, and these sectors from 5 on.
pub fn sectors_of(
    alloc: Global,
    read_only: u8,
    file: &Inode,
    blocks: &[[u8; 512]],
) -> Result<Vec<[u8; 512]>, NoMemory>
    requires { AddressesFit file.now }
{
    let mut first = [0; 512];
    super_block(read_only).write(&mut first);
    let mut inodes = [0; 512];
    ROOT.write(&mut inodes[64..128]);
    file.write(&mut inodes[128..192]);
    let mut sectors = Vec::new(alloc);
    for sector in [[0; 512], first, inodes, [0; 512], directory()] {
        sectors.push(sector)?;
    }
    for block in blocks {
        sectors.push(*block)?;
    }
    for _ in sectors.len()..64 {
        sectors.push([0; 512])?;
    }
    Ok(sectors)
}

/// The 64 sectors of the volume of this shape, whose file holds 1,024 bytes, all `a` but for two.
pub fn test_volume(alloc: Global, shape: Shape) -> Result<Vec<[u8; 512]>, NoMemory> {
    let mut body = [[b'a'; 512]; 2];
    body[0][511] = shape.bytes[0];
    body[1][0] = shape.bytes[1];
    sectors_of(alloc, shape.read_only, &file(shape), &body)
}
