//! Batches on a small volume over a store in memory.

use crate::batch_plan::{Planned, plan_writes};
use crate::set_plan::plan_setattr;
use files_model::{Cred, Data, FileId, Gids, Reply, Sattr, Stat, WriteItem};
use stable::{Plan, Stable};
use std::alloc::Global;
use std::test::Fail;
use store_mem::Memory;
use v7_layout::{Inode, Record, Super};
use v7_sets::Sets;

const FILE: FileId = FileId {
    ino: 3,
    generation: 1,
};

// A volume of 64 sectors, whose data blocks begin at 4, and whose file 3 is empty.
fn volume(alloc: Global) -> Result<Memory, Fail> {
    let mut store = Memory::new(alloc, &[[0; 512]; 64]).map_err(|_| "memory")?;
    let mut sector = [0; 512];
    let mut super_block = Super::read(&sector);
    super_block.s_isize = 4;
    super_block.s_fsize = 64;
    super_block.mark = 1;
    super_block.write(&mut sector);
    store.put(1, &sector).map_err(|_| "store")?;
    let mut inode = Inode::read(&[0; 64]);
    inode.mode = 0o100_644;
    inode.nlink = 1;
    inode.uid = 100;
    inode.gid = 100;
    inode.generation = 1;
    let mut sector = [0; 512];
    inode.write(&mut sector[128..192]);
    store.put(2, &sector).map_err(|_| "store")?;
    Ok(store)
}

// These blocks are free.
fn free(alloc: Global, blocks: &[u32]) -> Result<Sets, Fail> {
    let mut sets = Sets::new(alloc, 64, 17).map_err(|_| "memory")?;
    for block in blocks {
        sets.blocks.give(*block);
    }
    Ok(sets)
}

// The owner of the file.
fn owner() -> Cred {
    Cred {
        uid: 100,
        gid: 100,
        gids: Gids::copy(&[]),
    }
}

// A write of one byte by the owner.
fn one_byte(alloc: Global, offset: u32) -> Result<WriteItem, Fail> {
    Ok(WriteItem {
        cred: owner(),
        offset,
        bytes: Data::copy(alloc, b"X").map_err(|_| "memory")?,
    })
}

// A batch at second 2000.
fn plan(
    alloc: Global,
    store: &mut Memory,
    sets: &mut Sets,
    batch: &[WriteItem],
) -> Result<Planned, Fail> {
    if batch.len() > 16 {
        return Err("no batch".into());
    }
    Ok(plan_writes(alloc, store, sets, FILE, batch, 2000).map_err(|_| "not planned")?)
}

// Puts a plan on a store.
fn run(store: &mut Memory, plan: &Plan) -> Result<(), Fail> {
    for put in plan.puts() {
        if put.0 >= store.sectors() {
            return Err("past the store".into());
        }
        store.put(put.0, &put.1).map_err(|_| "store")?;
    }
    Ok(())
}

// A SETATTR of a size by the owner, put at second 3000. It gives how many puts it took, and how many blocks it freed.
fn resize(alloc: Global, store: &mut Memory, size: u32) -> Result<(usize, usize), Fail> {
    let wanted = Sattr {
        mode: None,
        uid: None,
        gid: None,
        size: Some(size),
        atime: None,
        mtime: None,
    };
    let planned = plan_setattr(alloc, store, FILE, &wanted, &owner(), 3000).map_err(
        |_| "not planned",
    )?;
    if !matches!(&planned.reply, Reply::Attr(attr) if attr.size == size && attr.ctime == 3000) {
        return Err("another reply".into());
    }
    run(store, &planned.plan)?;
    Ok((planned.plan.puts().len(), planned.freed.len()))
}

#[test]
fn the_last_byte_of_the_greatest_file_takes_two_blocks(rt: HostRuntime) -> Result<(), Fail> {
    let alloc = rt.alloc();
    let mut store = volume(alloc)?;
    let mut sets = free(alloc, &[30, 10, 20])?;
    let batch = [one_byte(alloc, 70_655)?, one_byte(alloc, 70_656)?];
    let planned = plan(alloc, &mut store, &mut sets, &batch)?;
    let replies = planned.replies.as_slice();
    assert!(rt; replies.len() == 2);
    assert!(rt;
        matches!(&replies[0], Reply::Attr(attr) if attr.size == 70_656 && attr.mtime == 2000)
    );
    assert!(rt; matches!(&replies[1], Reply::Refused(Stat::Fbig)));
    let puts = planned.plan.puts();
    assert!(rt; puts.len() == 3);
    assert!(rt; puts[0].0 == 10 && puts[1].0 == 20 && puts[2].0 == 2);
    let data = puts[0].1;
    let addresses = puts[1].1;
    assert!(rt; data[510] == 0 && data[511] == b'X');
    assert!(rt; addresses[507] == 0 && addresses[508] == 10 && addresses[509] == 0);
    assert!(rt; sets.blocks.count() == 1 && sets.blocks.has(30));
    Ok(())
}

#[test]
fn one_free_block_is_too_few_for_a_block_of_addresses(rt: HostRuntime) -> Result<(), Fail> {
    let alloc = rt.alloc();
    let mut store = volume(alloc)?;
    let mut sets = free(alloc, &[10])?;
    let batch = [one_byte(alloc, 5120)?, one_byte(alloc, 5119)?];
    let planned = plan(alloc, &mut store, &mut sets, &batch)?;
    let replies = planned.replies.as_slice();
    assert!(rt; replies.len() == 2);
    assert!(rt; matches!(&replies[0], Reply::Refused(Stat::Nospc)));
    assert!(rt; matches!(&replies[1], Reply::Attr(attr) if attr.size == 5120));
    assert!(rt; planned.plan.puts().len() == 2);
    Ok(())
}

// A write of 8,192 bytes by the owner.
fn most_bytes(alloc: Global, offset: u32) -> Result<WriteItem, Fail> {
    let item = one_byte(alloc, offset)?;
    let bytes = Data::copy(alloc, &[b'Y'; 8192]).map_err(|_| "memory")?;
    Ok(WriteItem { bytes, ..item })
}

#[test]
fn three_writes_are_one_plan_and_the_last_one_wins(rt: HostRuntime) -> Result<(), Fail> {
    let alloc = rt.alloc();
    let mut store = volume(alloc)?;
    let mut sets = Sets::new(alloc, 64, 17).map_err(|_| "memory")?;
    for block in 10..36 {
        sets.blocks.give(block);
    }
    let batch = [
        most_bytes(alloc, 0)?,
        most_bytes(alloc, 4096)?,
        one_byte(alloc, 0)?,
    ];
    let planned = plan(alloc, &mut store, &mut sets, &batch)?;
    let replies = planned.replies.as_slice();
    assert!(rt; replies.len() == 3);
    assert!(rt;
        matches!(&replies[0], Reply::Attr(attr) if attr.size == 8192 && attr.mtime == 2000)
    );
    assert!(rt; matches!(&replies[1], Reply::Attr(attr) if attr.size == 12288));
    assert!(rt;
        matches!(&replies[2], Reply::Attr(attr) if attr.size == 12288 && attr.mtime == 2000)
    );
    let puts = planned.plan.puts();
    assert!(rt; puts.len() == 26);
    assert!(rt; puts[0].0 == 10 && puts[23].0 == 33 && puts[24].0 == 34 && puts[25].0 == 2);
    let first = puts[0].1;
    assert!(rt; first[0] == b'X' && first[1] == b'Y');
    assert!(rt; sets.blocks.count() == 1 && sets.blocks.has(35));
    Ok(())
}

#[test]
fn what_a_shorter_file_drops_reads_as_zeros_when_it_grows(rt: HostRuntime) -> Result<(), Fail> {
    let alloc = rt.alloc();
    let mut store = volume(alloc)?;
    let mut sets = Sets::new(alloc, 64, 17).map_err(|_| "memory")?;
    for block in 10..36 {
        sets.blocks.give(block);
    }
    let batch = [most_bytes(alloc, 0)?];
    let planned = plan(alloc, &mut store, &mut sets, &batch)?;
    run(&mut store, &planned.plan)?;
    // 16 sectors in blocks 10 to 25, and block 26 with the addresses of the last six
    assert!(rt; resize(alloc, &mut store, 5633)? == (2, 4));
    let addresses = store.sector(26);
    assert!(rt;
        addresses[0] == 20 && addresses[4] == 21 && addresses[8] == 0 && addresses[20] == 0
    );
    assert!(rt; store.sector(21) == [b'Y'; 512]);
    assert!(rt; resize(alloc, &mut store, 8192)? == (2, 0));
    let last = store.sector(21);
    assert!(rt; last[0] == b'Y' && last[1] == 0 && last[511] == 0);
    assert!(rt; resize(alloc, &mut store, 100)? == (1, 12));
    let inode = Inode::read(&store.sector(2)[128..192]);
    assert!(rt;
        inode.size == 100 && inode.single == 0 && inode.direct[0] == 10 && inode.direct[1] == 0
    );
    Ok(())
}
