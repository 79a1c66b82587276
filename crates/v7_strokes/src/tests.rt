//! Puts that are added to plans, on a small volume: a root, inode 2, whose slots stand in sector 4, and file 3 with its name in slot 2.

use super::*;
use stable::{Failed, Plan, Stable};
use std::alloc::Global;
use std::test::Fail;
use store_mem::Memory;
use v7_layout::Inode;
use v7_read::inode_in;
use volume_mem::{FRESH, test_volume};

fn volume(alloc: Global) -> Result<Memory, Fail> {
    let mut sectors = test_volume(alloc, FRESH).map_err(|_| "memory")?;
    // a store asks that its sectors can be numbered
    sectors.truncate(64);
    let store = Memory::new(alloc, sectors.as_slice()).map_err(|_| "memory")?;
    Ok(store)
}

// The name of file 3 is taken away at second 2000, and with it the file.
fn take<S: Stable>(store: &mut S, plan: &mut Plan) -> Result<(), Failed> {
    if store.sectors() < 64 || plan.puts().len() + 3 > plan.room() {
        return Err(Failed);
    }
    add_slot(store, plan, 4, 2, &empty_slot())?;
    add_times(store, plan, 2, 2000)?;
    add_unlinked(store, plan, 3, true, 2000)?;
    Ok(())
}

#[test]
fn a_name_and_its_file_are_taken_away(rt: HostRuntime) -> Result<(), Fail> {
    let alloc = rt.alloc();
    let mut store = volume(alloc)?;
    let mut plan = Plan::new(alloc, 3).map_err(|_| "memory")?;
    take(&mut store, &mut plan).map_err(|_| "store")?;
    let puts = plan.puts();
    assert!(rt; puts.len() == 2);
    assert!(rt; puts[0].0 == 4 && puts[1].0 == 2);
    let slots = puts[0].1;
    let inodes = puts[1].1;
    assert!(rt; slots[16] == 2 && slots[32] == 0 && slots[34] == 0);
    let root = inode_in(&inodes, 2);
    assert!(rt; root.mtime == 2000 && root.ctime == 2000 && root.atime == 1000 && root.nlink == 2);
    let file = inode_in(&inodes, 3);
    assert!(rt; file.mode == 0 && file.nlink == 0 && file.direct[0] == 0 && file.generation == 1);
    Ok(())
}

// The root's fourth slot names file 9, and then file 3 loses a name of two.
fn name<S: Stable>(store: &mut S, plan: &mut Plan) -> Result<Inode, Failed> {
    if store.sectors() < 64 || plan.puts().len() + 3 > plan.room() {
        return Err(Failed);
    }
    add_slot(store, plan, 4, 3, &slot_of(9, b"new"))?;
    let inode = planned_inode(store, plan, 3)?;
    add_inode(store, plan, 3, &Inode { nlink: 2, ..inode })?;
    add_unlinked(store, plan, 3, false, 3000)?;
    planned_inode(store, plan, 3)
}

#[test]
fn what_a_plan_puts_is_read_again(rt: HostRuntime) -> Result<(), Fail> {
    let alloc = rt.alloc();
    let mut store = volume(alloc)?;
    let mut plan = Plan::new(alloc, 3).map_err(|_| "memory")?;
    let inode = name(&mut store, &mut plan).map_err(|_| "store")?;
    assert!(rt;
        inode.nlink == 1 && inode.ctime == 3000 && inode.mtime == 1000 && inode.direct[1] == 6
    );
    let puts = plan.puts();
    assert!(rt; puts.len() == 2);
    let slots = puts[0].1;
    assert!(rt; slots[48] == 9 && slots[50] == b'n' && slots[52] == b'w' && slots[53] == 0);
    Ok(())
}
