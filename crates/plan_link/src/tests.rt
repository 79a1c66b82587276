//! Links on a small volume: a root, inode 2, whose slots stand in sector 4, and file 3 with its name in slot 2.

use super::plan_link;
use files_model::{FileId, Name, Reply, Stat};
use plan_name::Planned;
use small_volumes::{ROOT_ID, Small, sectors_put, times, user};
use std::alloc::Global;
use std::test::Fail;
use v7_layout::Inode;
use volume_mem::FRESH;

const FILE: FileId = FileId {
    ino: 3,
    generation: 1,
};

// The volume whose root has 32 slots, all used but one of this number, and on which one block is free, 40.
fn full(alloc: Global, empty: u32) -> Result<Small, Fail> {
    let mut small = Small::new(alloc, FRESH)?;
    small.fill(32, empty)?;
    small.sets.blocks.give(40);
    Ok(small)
}

// A LINK to a name in the root by the user of this number, at second 2000.
fn link(small: &mut Small, file: FileId, name: &[u8], uid: u16) -> Result<Planned, Fail> {
    if name.len() > 255 {
        return Err("too long".into());
    }
    let name = Name::copy(name);
    let planned = plan_link(
        small.alloc,
        &mut small.store,
        &mut small.sets,
        file,
        ROOT_ID,
        &name,
        &user(uid),
        2000,
    );
    Ok(planned.map_err(|_| "not planned")?)
}

// The call is refused so, and plans nothing.
fn is_refused(planned: &Planned, status: Stat) -> bool {
    planned.plan.puts().len() == 0
        && matches!(&planned.reply, Reply::Refused(refusal) if *refusal == status)
}

#[test]
fn a_name_takes_the_empty_slot(rt: HostRuntime) -> Result<(), Fail> {
    let mut small = full(rt.alloc(), 17)?;
    let linked = link(&mut small, FILE, b"new", 0)?;
    assert!(rt; matches!(linked.reply, Reply::Done) && sectors_put(&linked.plan) == [2, 4, 2, 0]);
    small.put(&linked.plan)?;
    let slots = small.store.sector(4);
    assert!(rt; slots[272] == 3 && slots[274] == b'n' && slots[277] == 0 && slots[288] == 3);
    let file = small.inode(3);
    assert!(rt; file.nlink == 2 && file.size == 1024 && times(&file) == [1000, 1000, 2000]);
    let root = small.inode(2);
    assert!(rt; root.size == 512 && times(&root) == [1000, 2000, 2000]);
    assert!(rt; small.sets.blocks.count() == 1);
    Ok(())
}

#[test]
fn a_name_in_a_full_directory_takes_a_block(rt: HostRuntime) -> Result<(), Fail> {
    let mut small = full(rt.alloc(), 32)?;
    let linked = link(&mut small, FILE, b"new", 0)?;
    assert!(rt; matches!(linked.reply, Reply::Done) && sectors_put(&linked.plan) == [2, 40, 2, 0]);
    small.put(&linked.plan)?;
    let slots = small.store.sector(40);
    assert!(rt; slots[0] == 3 && slots[2] == b'n' && slots[5] == 0 && slots[16] == 0);
    let root = small.inode(2);
    assert!(rt; root.size == 528 && root.direct == [4, 40, 0, 0, 0, 0, 0, 0, 0, 0]);
    assert!(rt; small.inode(3).nlink == 2 && small.sets.blocks.count() == 0);
    Ok(())
}

#[test]
fn a_refused_link_plans_nothing(rt: HostRuntime) -> Result<(), Fail> {
    let mut small = full(rt.alloc(), 17)?;
    let stale = link(&mut small, FileId { ino: 4, ..FILE }, b"new", 0)?;
    assert!(rt; is_refused(&stale, Stat::Stale));
    let directory = link(&mut small, ROOT_ID, b"new", 0)?;
    assert!(rt; is_refused(&directory, Stat::Isdir));
    // the name is asked before the permission
    let taken = link(&mut small, FILE, b"f", 100)?;
    assert!(rt; is_refused(&taken, Stat::Exist));
    let denied = link(&mut small, FILE, b"new", 100)?;
    assert!(rt; is_refused(&denied, Stat::Acces));
    for (name, status) in [
        (b"..".as_slice(), Stat::Acces),
        (b"fifteen bytes..".as_slice(), Stat::Nametoolong),
    ] {
        let refused = link(&mut small, FILE, name, 0)?;
        assert!(rt; is_refused(&refused, status), "status {status:?}");
    }
    assert!(rt; small.sets.blocks.has(40));
    Ok(())
}

#[test]
fn a_file_has_32767_links_at_most(rt: HostRuntime) -> Result<(), Fail> {
    let mut small = full(rt.alloc(), 17)?;
    let most = Inode {
        nlink: 32_767,
        ..small.inode(3)
    };
    small.set_inode(3, &most)?;
    let refused = link(&mut small, FILE, b"new", 0)?;
    assert!(rt; is_refused(&refused, Stat::Nospc));
    let fewer = Inode {
        nlink: 32_766,
        ..most
    };
    small.set_inode(3, &fewer)?;
    let linked = link(&mut small, FILE, b"new", 0)?;
    assert!(rt; matches!(linked.reply, Reply::Done));
    small.put(&linked.plan)?;
    assert!(rt; small.inode(3).nlink == 32_767);
    Ok(())
}

#[test]
fn a_full_volume_has_no_block_for_a_name(rt: HostRuntime) -> Result<(), Fail> {
    let mut small = full(rt.alloc(), 32)?;
    small.sets.blocks.take(40);
    let refused = link(&mut small, FILE, b"new", 0)?;
    assert!(rt; is_refused(&refused, Stat::Nospc));
    Ok(())
}
