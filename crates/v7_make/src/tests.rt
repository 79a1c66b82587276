//! Volumes and free chains that were worked by hand, on a store in memory.

use crate::{MakeFault, fits, make, write_chain};
use index_sets::FreeSet;
use stable::{Failed, NoMemory, Stable};
use std::alloc::Global;
use std::test::Fail;
use store_mem::Memory;
use v7_layout::{Chain, Inode, Record, Slot, Super};
use v7_read::inode_in;

// Makes a volume that has all of a store.
fn make_on(
    alloc: Global,
    store: &mut Memory,
    inodes: u32,
    name: [u8; 6],
) -> Result<u32, MakeFault> {
    let size = store.sectors();
    make(alloc, store, size, inodes.max(1), name, 1000)
}

#[test]
fn a_volume_of_64_sectors_has_59_free_blocks(rt: HostRuntime) -> Result<(), Fail> {
    let mut store = Memory::new(rt.alloc(), &[[9; 512]; 64]).map_err(|_| "memory")?;
    assert_eq!(rt; make_on(rt.alloc(), &mut store, 16, *b"VOLA00"), Ok(59));
    assert!(rt; store.sector(0) == [9; 512]);
    let super_block = Super::read(&store.sector(1));
    assert!(rt; super_block.s_isize == 4 && super_block.s_fsize == 64);
    assert!(rt; super_block.s_nfree == 10);
    assert!(rt;
        super_block
            .s_free
            .starts_with(&[14, 13, 12, 11, 10, 9, 8, 7, 6, 5, 0, 0])
    );
    assert!(rt; super_block.s_ninode == 14);
    let numbers = [16, 15, 14, 13, 12, 11, 10, 9, 8, 7, 6, 5, 4, 3, 0, 0];
    assert!(rt; super_block.s_inode.starts_with(&numbers));
    assert!(rt; super_block.s_fmod == 0 && super_block.s_ronly == 0);
    assert!(rt; super_block.s_time == 1000);
    assert!(rt; super_block.s_tfree == 59 && super_block.s_tinode == 14);
    assert!(rt; super_block.s_fpack == *b"VOLA00" && super_block.mark == 1);
    let chain = Chain::read(&store.sector(14));
    assert!(rt; chain.s_nfree == 50 && chain.s_free[0] == 0);
    for place in 1..50 {
        assert!(rt; chain.s_free[place] as usize == 64 - place);
    }
    Ok(())
}

#[test]
fn the_root_of_a_new_volume_is_its_only_file(rt: HostRuntime) -> Result<(), Fail> {
    let mut store = Memory::new(rt.alloc(), &[[9; 512]; 64]).map_err(|_| "memory")?;
    assert_eq!(rt; make_on(rt.alloc(), &mut store, 9, *b"VOLA00"), Ok(59));
    let root = inode_in(&store.sector(2), 2);
    let mut direct = [0; 10];
    direct[0] = 4;
    assert!(rt;
        root == Inode {
            mode: 0o040_755,
            nlink: 2,
            uid: 0,
            gid: 0,
            size: 32,
            direct,
            single: 0,
            double: 0,
            generation: 1,
            atime: 1000,
            mtime: 1000,
            ctime: 1000,
        }
    );
    let slots = store.sector(4);
    let dot = Slot::read(&slots[..16]);
    let dots = Slot::read(&slots[16..32]);
    assert!(rt; dot.ino == 2 && dot.name.starts_with(b".\0"));
    assert!(rt; dots.ino == 2 && dots.name.starts_with(b"..\0"));
    assert!(rt; inode_in(&store.sector(2), 3) == Inode::read(&[0; 64]));
    assert!(rt; store.sector(3) == [0; 512]);
    Ok(())
}

#[test]
fn sizes_are_too_large_before_they_are_too_small(rt: HostRuntime) -> Result<(), Fail> {
    for (size, inodes, answer) in [
        (4, 16, Err(MakeFault::TooSmall { need: 5, have: 4 })),
        (5, 16, Ok(())),
        (5, 17, Err(MakeFault::TooSmall { need: 6, have: 5 })),
        (2_000_000, 16, Err(MakeFault::TooLarge)),
        (1_048_576, 65_528, Ok(())),
        (1_048_577, 16, Err(MakeFault::TooLarge)),
        (4, 65_529, Err(MakeFault::TooLarge)),
    ] {
        assert_eq!(rt; fits(size, inodes), answer);
    }
    let mut store = Memory::new(rt.alloc(), &[[9; 512]; 4]).map_err(|_| "memory")?;
    let answer = make_on(rt.alloc(), &mut store, 16, *b"VOLA00");
    assert_eq!(rt; answer, Err(MakeFault::TooSmall { need: 5, have: 4 }));
    assert!(rt; store.puts == 0 && store.sectors.as_slice() == [[9; 512]; 4].as_slice());
    let fault = MakeFault::TooSmall { need: 5, have: 4 };
    assert_eq!(rt;
        format!(in rt.alloc(); "{fault}")?.as_str(),
        "the volume needs 5 sectors, and has 4"
    );
    Ok(())
}

// A set of the numbers from one on and below another.
fn numbers(alloc: Global, from: u32, size: u32) -> Result<FreeSet, NoMemory> {
    let mut numbers = FreeSet::new(alloc, size)?;
    for number in from..size {
        numbers.give(number);
    }
    Ok(numbers)
}

// Writes a chain, where the sets fit the store.
fn chain_on(store: &mut Memory, blocks: &FreeSet, inodes: &FreeSet) -> Result<(), Failed> {
    if store.sectors() < 2 {
        return Err(Failed);
    }
    if blocks.size() > store.sectors() {
        return Err(Failed);
    }
    if inodes.size() > 65_529 {
        return Err(Failed);
    }
    write_chain(store, blocks, inodes, 2000)
}

#[test]
fn a_chain_has_a_record_for_each_50_blocks(rt: HostRuntime) -> Result<(), Fail> {
    // From which block up to the end of the volume, how many puts the chain takes, and the list that comes into the super-block.
    let rows = [
        (7, 64, 2, 8, &[14, 13, 12, 11, 10, 9, 8, 7, 0][..]),
        (128, 128, 1, 1, &[0, 0]),
        (79, 128, 1, 50, &[0, 127, 126]),
        (78, 128, 2, 1, &[78, 0]),
        (29, 128, 2, 50, &[78, 77, 76]),
        (28, 128, 3, 1, &[28, 0]),
        (26, 128, 3, 3, &[28, 27, 26, 0]),
    ];
    for (lowest, size, puts, used, first) in rows {
        let mut store = Memory::new(rt.alloc(), &[[7; 512]; 128]).map_err(|_| "memory")?;
        let blocks = numbers(rt.alloc(), lowest, size).map_err(|_| "memory")?;
        let inodes = numbers(rt.alloc(), 3, 1000).map_err(|_| "memory")?;
        assert_eq!(rt; chain_on(&mut store, &blocks, &inodes), Ok(()));
        assert!(rt; store.puts == puts, "from {lowest}");
        let super_block = Super::read(&store.sector(1));
        assert!(rt; super_block.s_nfree == used, "from {lowest}");
        assert!(rt; super_block.s_free.starts_with(first), "from {lowest}");
        assert!(rt; super_block.s_ninode == 100 && super_block.s_tinode == 997);
        assert!(rt; super_block.s_inode.starts_with(&[102, 101]));
        assert!(rt; super_block.s_inode[99] == 3);
    }
    Ok(())
}

#[test]
fn a_chain_leaves_out_used_blocks_and_keeps_the_rest_of_the_super_block(
    rt: HostRuntime,
) -> Result<(), Fail> {
    let mut store = Memory::new(rt.alloc(), &[[7; 512]; 64]).map_err(|_| "memory")?;
    let mut blocks = numbers(rt.alloc(), 7, 64).map_err(|_| "memory")?;
    let inodes = numbers(rt.alloc(), 4, 17).map_err(|_| "memory")?;
    blocks.take(8);
    store.failing = 2;
    assert_eq!(rt; chain_on(&mut store, &blocks, &inodes), Err(Failed));
    assert!(rt; store.sector(1) == [7; 512] && store.faults == 1);
    store.failing = 0;
    assert_eq!(rt; chain_on(&mut store, &blocks, &inodes), Ok(()));
    let super_block = Super::read(&store.sector(1));
    assert!(rt; super_block.s_nfree == 7 && super_block.s_tfree == 56);
    assert!(rt;
        super_block
            .s_free
            .starts_with(&[14, 13, 12, 11, 10, 9, 7, 0])
    );
    assert!(rt; super_block.s_fmod == 0 && super_block.s_time == 2000);
    assert!(rt; super_block.s_ronly == 7 && super_block.s_fpack == [7; 6]);
    assert!(rt; store.sector(13) == [7; 512] && store.sector(15) == [7; 512]);
    Ok(())
}
