//! The test volume with something to mend.

ghost use Rattle.std.specs.Prelude.{◌≡◌, length, IfOk};
ghost use Rattle.v7_layout.specs.Written.{AddressesFit};

use crate::mend;
use stable::{Failed, NoMemory};
use std::alloc::Global;
use std::test::Fail;
use store_mem::Memory;
use v7_layout::{Inode, Record, Super};
use v7_read::inode_offset_of;
use volume_mem::{FRESH, ROOT};

// How many slots name each inode, from 0 on: two the root, and one file 3.
const LINKS: [u16; 17] = [0, 0, 2, 1, 0, 0, 0, 0, 0, 0, 0, 0, 0, 0, 0, 0, 0];

// File 3, which has nothing to mend.
fn file() -> Inode
    ensures { AddressesFit result }
{
    volume_mem::file(FRESH)
}

// The sector with this inode at its number.
fn with_inode(sector: &[u8; 512], ino: u32, inode: &Inode) -> [u8; 512]
    requires { AddressesFit inode.now }
{
    let mut bytes = [0; 64];
    inode.write(&mut bytes);
    let at = inode_offset_of(ino);
    let mut sector = *sector;
    sector[at..at + 64].copy_from_slice(&bytes);
    sector
}

// The first sector of inodes: the root, this file 3, and this inode 4.
fn inodes(file: &Inode, fourth: &Inode) -> [u8; 512]
    requires file { AddressesFit file.now }
    requires fourth { AddressesFit fourth.now }
{
    let bytes = with_inode(&[0; 512], 2, &ROOT);
    let bytes = with_inode(&bytes, 3, file);
    with_inode(&bytes, 4, fourth)
}

fn free() -> Inode
    ensures { AddressesFit result }
{
    Inode::read(&[0; 64])
}

// What differs from volume to volume in these tests: both sectors of inodes, and sector 10.
#[derive(Clone, Copy)]
struct Shape {
    inodes: [u8; 512],
    last: [u8; 512],
    block: [u8; 512],
}

// With these inodes 3 and 4, and nothing else to mend.
fn with_inodes(file: &Inode, fourth: &Inode) -> Shape
    requires file { AddressesFit file.now }
    requires fourth { AddressesFit fourth.now }
{
    Shape {
        inodes: inodes(file, fourth),
        last: [0; 512],
        block: [0; 512],
    }
}

// The test volume: 64 sectors, of which inodes end at block 4.
fn volume(alloc: Global, shape: &Shape) -> Result<Memory, NoMemory>
    ensures { IfOk result (λ store. length store.sectors.items ≡ 64) }
{
    let mut sectors = [[0; 512]; 64];
    let mut super_block = Super::read(&[0; 512]);
    super_block.s_isize = 4;
    super_block.s_fsize = 64;
    super_block.s_fpack = *b"VOLA00";
    super_block.mark = 1;
    super_block.write(&mut sectors[1]);
    sectors[2] = shape.inodes;
    sectors[3] = shape.last;
    sectors[4][..3].copy_from_slice(b"\x02\x00.");
    sectors[4][16..20].copy_from_slice(b"\x02\x00..");
    sectors[4][32..35].copy_from_slice(b"\x03\x00f");
    sectors[5] = [b'a'; 512];
    sectors[6] = [b'a'; 512];
    sectors[10] = shape.block;
    Memory::new(alloc, &sectors)
}

// Mends the volume of a store.
fn mended(store: &mut Memory) -> Result<u32, Failed>
    requires { length store.old.sectors.items ≡ 64 }
    ensures { length store.new.sectors.items ≡ 64 }
{
    mend(store, 4, &LINKS)
}

// Such a volume on a store one of whose puts fails, mended, and the answer.
fn mended_with(
    alloc: Global,
    shape: &Shape,
    failing: u64,
) -> Result<(Memory, Result<u32, Failed>), NoMemory>
    ensures { IfOk result (λ mended. length mended.0.sectors.items ≡ 64) }
{
    let mut store = volume(alloc, shape)?;
    store.failing = failing;
    let answer = mended(&mut store);
    Ok((store, answer))
}

// Whether the store holds such a volume.
fn is_volume(alloc: Global, store: &Memory, shape: &Shape) -> Result<bool, Fail> {
    let wanted = volume(alloc, shape).map_err(|_| "memory")?;
    Ok(store.sectors.as_slice() == wanted.sectors.as_slice())
}

// A block that lists these sectors.
fn listing(addresses: &[u8]) -> [u8; 512] {
    let mut block = [0; 512];
    for (address, place) in addresses.iter().zip(block.chunks_exact_mut(4)) {
        place[0] = *address;
    }
    block
}

// The last sector of inodes, whose last has this mode and generation.
fn last_inode(mode: u16, generation: u32) -> [u8; 512] {
    let inode = Inode {
        mode,
        generation,
        ..free()
    };
    with_inode(&[0; 512], 16, &inode)
}

#[test]
fn what_is_to_be_mended_is_put_once(rt: HostRuntime) -> Result<(), Fail> {
    let sound = with_inodes(&file(), &free());
    let freed = Inode {
        generation: 9,
        ..free()
    };
    let unnamed = Inode {
        single: 10,
        generation: 9,
        ..file()
    };
    let long = Inode {
        size: 6000,
        single: 10,
        ..file()
    };
    // The volume, what it is afterwards, and which sectors are put.
    let rows = [
        ("nothing", sound, sound, &[][..]),
        (
            "a stored link count",
            with_inodes(&Inode { nlink: 5, ..file() }, &free()),
            sound,
            &[2],
        ),
        (
            "an inode without names, whose block of addresses stays as it is",
            Shape {
                block: listing(&[8, 9]),
                ..with_inodes(&file(), &unnamed)
            },
            Shape {
                block: listing(&[8, 9]),
                ..with_inodes(&file(), &freed)
            },
            &[2],
        ),
        (
            "the last inode without names",
            Shape {
                last: last_inode(0o100_600, 7),
                ..sound
            },
            Shape {
                last: last_inode(0, 7),
                ..sound
            },
            &[3],
        ),
        (
            "an address past the size",
            with_inodes(
                &Inode {
                    direct: [5, 6, 8, 0, 0, 0, 0, 0, 0, 9],
                    ..file()
                },
                &free(),
            ),
            sound,
            &[2],
        ),
        (
            "addresses past the size in a block of addresses",
            Shape {
                block: listing(&[8, 0, 9, 11]),
                ..with_inodes(&long, &free())
            },
            Shape {
                block: listing(&[8]),
                ..with_inodes(&long, &free())
            },
            &[10],
        ),
        (
            "a block of addresses without one below the size",
            Shape {
                block: listing(&[0, 0, 9]),
                ..with_inodes(&long, &free())
            },
            Shape {
                block: listing(&[0, 0, 9]),
                ..with_inodes(&Inode { single: 0, ..long }, &free())
            },
            &[2],
        ),
        (
            "a free inode",
            with_inodes(&file(), &freed),
            with_inodes(&file(), &freed),
            &[],
        ),
    ];
    for (what, before, after, order) in rows {
        let (mut store, answer) = mended_with(rt.alloc(), &before, 0).map_err(|_| "memory")?;
        assert!(rt;
            matches!(answer, Ok(changed) if changed as usize == order.len()),
            "{what}"
        );
        assert!(rt; store.puts == order.len() as u64, "{what}");
        assert!(rt; store.order.starts_with(order), "{what}");
        assert!(rt; is_volume(rt.alloc(), &store, &after)?, "{what}");
        assert!(rt; mended(&mut store) == Ok(0), "{what}");
    }
    Ok(())
}

#[test]
fn a_mend_that_fails_is_gone_on_with(rt: HostRuntime) -> Result<(), Fail> {
    let file = Inode {
        size: 6000,
        single: 10,
        ..file()
    };
    let none = Shape {
        inodes: inodes(&Inode { nlink: 5, ..file }, &free()),
        last: last_inode(0o100_600, 7),
        block: listing(&[8, 0, 9]),
    };
    let one = Shape {
        block: listing(&[8]),
        ..none
    };
    let two = Shape {
        inodes: inodes(&file, &free()),
        ..one
    };
    let three = Shape {
        last: last_inode(0, 7),
        ..two
    };
    // Which put fails, what is there then, and how many puts are left.
    for (failing, there, left) in [(1, none, 3), (2, one, 2), (3, two, 1)] {
        let (mut store, answer) = mended_with(rt.alloc(), &none, failing).map_err(|_| "memory")?;
        assert!(rt; answer == Err(Failed), "put {failing} fails");
        assert!(rt;
            store.faults == 1 && store.puts == failing,
            "put {failing} fails"
        );
        assert!(rt;
            is_volume(rt.alloc(), &store, &there)?,
            "put {failing} fails"
        );
        assert!(rt; mended(&mut store) == Ok(left), "put {failing} fails");
        assert!(rt;
            is_volume(rt.alloc(), &store, &three)?,
            "put {failing} fails"
        );
    }
    Ok(())
}

#[test]
fn each_sector_is_read_at_most_twice(rt: HostRuntime) -> Result<(), Fail> {
    let long = Inode {
        size: 6000,
        single: 10,
        ..file()
    };
    let shape = Shape {
        inodes: inodes(&long, &free()),
        last: last_inode(0o100_600, 7),
        block: listing(&[8, 0, 9]),
    };
    let mut store = volume(rt.alloc(), &shape).map_err(|_| "memory")?;
    assert!(rt; mend(&mut store, 4, &LINKS) == Ok(2));
    assert!(rt; store.order.starts_with(&[10, 3]));
    let mut wanted = [0; 64];
    wanted[2] = 2;
    wanted[3] = 2;
    wanted[10] = 2;
    assert!(rt; store.reads == wanted);
    Ok(())
}
