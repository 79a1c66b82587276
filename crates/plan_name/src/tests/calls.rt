//! A CREATE and a REMOVE planned whole, put on the volume, and what they free given back.

use super::named;
use crate::{Planned, plan_create, plan_remove};
use files_model::{Cred, Reply, Sattr, Stat};
use small_volumes::{NOTHING, ROOT_ID, Small, sectors_put, times, user};
use std::alloc::Global;
use std::test::Fail;
use v7_layout::Inode;
use v7_sets::Sets;
use volume_mem::{FRESH, Shape};

// The test volume of this shape, whose blocks from 7 on and i-numbers from 4 on are free.
fn volume(alloc: Global, shape: Shape) -> Result<Small, Fail> {
    let mut small = Small::new(alloc, shape)?;
    for block in 7..64 {
        small.sets.blocks.give(block);
    }
    for number in 4..17 {
        small.sets.inodes.give(number);
    }
    Ok(small)
}

// Puts the plan, and gives back what it frees.
fn run(small: &mut Small, planned: &Planned) -> Result<(), Fail> {
    small.put(&planned.plan)?;
    for block in planned.freed.blocks.as_slice() {
        small.sets.blocks.give(*block);
    }
    match planned.freed.inode {
        Some(number) => small.sets.inodes.give(number),
        None => {}
    }
    Ok(())
}

// A CREATE in the root by the superuser.
fn create(small: &mut Small, name: &[u8], wanted: &Sattr, now: u32) -> Result<Planned, Fail> {
    let name = named(name);
    let planned = plan_create(
        small.alloc,
        &mut small.store,
        &mut small.sets,
        ROOT_ID,
        &name,
        wanted,
        &user(0),
        now,
    );
    Ok(planned.map_err(|_| "not planned")?)
}

// A REMOVE in the root.
fn remove(small: &mut Small, name: &[u8], cred: &Cred, now: u32) -> Result<Planned, Fail> {
    let name = named(name);
    let planned = plan_remove(small.alloc, &mut small.store, ROOT_ID, &name, cred, now);
    Ok(planned.map_err(|_| "not planned")?)
}

// The call is refused so, and plans nothing.
fn is_refused(planned: &Planned, status: Stat) -> bool {
    let nothing = planned.plan.puts().len() == 0
        && planned.freed.blocks.len() == 0
        && planned.freed.inode.is_none();
    nothing && matches!(&planned.reply, Reply::Refused(refusal) if *refusal == status)
}

// The call made this file, or found it.
fn answers(planned: &Planned, ino: u32, generation: u32) -> bool {
    matches!(&planned.reply, Reply::Handle { file, attr } if file.ino == ino && file.generation == generation && attr.fileid == ino)
}

// The i-number and the first byte of the name in a slot of the root's first sector.
fn slot(bytes: &[u8; 512], index: usize) -> [u8; 2] {
    if index >= 32 {
        return [0; 2];
    }
    [bytes[16 * index], bytes[16 * index + 2]]
}

#[test]
fn a_last_name_is_taken_away_with_its_file(rt: HostRuntime) -> Result<(), Fail> {
    let mut small = volume(rt.alloc(), FRESH)?;
    let removed = remove(&mut small, b"f", &user(0), 2000)?;
    assert!(rt; matches!(removed.reply, Reply::Done) && removed.freed.inode == Some(3));
    assert!(rt; sectors_put(&removed.plan) == [4, 2, 0, 0] && removed.freed.blocks.len() == 2);
    run(&mut small, &removed)?;
    assert!(rt; small.sets.blocks.has(5) && small.sets.blocks.has(6) && small.sets.inodes.has(3));
    let slots = small.store.sector(4);
    assert!(rt; slot(&slots, 1) == [2, b'.'] && slot(&slots, 2) == [0, 0]);
    let root = small.inode(2);
    assert!(rt; root.size == 48 && times(&root) == [1000, 2000, 2000]);
    let ended = small.inode(3);
    assert!(rt; ended.mode == 0 && ended.nlink == 0 && ended.size == 0 && ended.direct == [0; 10]);
    assert!(rt; ended.generation == 1 && times(&ended) == [0, 0, 0]);
    Ok(())
}

#[test]
fn a_file_is_made_anew(rt: HostRuntime) -> Result<(), Fail> {
    let mut small = volume(rt.alloc(), FRESH)?;
    let removed = remove(&mut small, b"f", &user(0), 2000)?;
    run(&mut small, &removed)?;
    let made = create(&mut small, b"g", &NOTHING, 3000)?;
    assert!(rt; answers(&made, 3, 2) && sectors_put(&made.plan) == [2, 4, 2, 0]);
    run(&mut small, &made)?;
    assert!(rt; small.sets.blocks.count() == 59 && small.sets.inodes.count() == 13);
    assert!(rt; slot(&small.store.sector(4), 2) == [3, b'g']);
    let file = small.inode(3);
    assert!(rt; file.mode == 0o100_666 && file.nlink == 1 && file.size == 0 && file.uid == 0);
    assert!(rt; file.generation == 2 && times(&file) == [3000, 3000, 3000]);
    let root = small.inode(2);
    assert!(rt; root.size == 48 && times(&root) == [1000, 3000, 3000]);
    Ok(())
}

#[test]
fn a_number_of_the_last_generation_is_never_used_again(rt: HostRuntime) -> Result<(), Fail> {
    let mut small = volume(rt.alloc(), FRESH)?;
    let last = Inode {
        generation: 4_294_967_295,
        ..small.inode(3)
    };
    small.set_inode(3, &last)?;
    let removed = remove(&mut small, b"f", &user(0), 2000)?;
    assert!(rt; removed.freed.inode.is_none() && removed.freed.blocks.len() == 2);
    run(&mut small, &removed)?;
    assert!(rt; small.inode(3).generation == 4_294_967_295);
    let made = create(&mut small, b"f", &NOTHING, 3000)?;
    assert!(rt; answers(&made, 4, 1));
    Ok(())
}

#[test]
fn a_file_with_another_name_stays(rt: HostRuntime) -> Result<(), Fail> {
    let mut small = volume(rt.alloc(), FRESH)?;
    let linked = Inode {
        nlink: 2,
        ..small.inode(3)
    };
    small.set_inode(3, &linked)?;
    let removed = remove(&mut small, b"f", &user(0), 2000)?;
    assert!(rt; matches!(removed.reply, Reply::Done) && removed.freed.inode.is_none());
    assert!(rt; removed.freed.blocks.len() == 0);
    run(&mut small, &removed)?;
    let left = small.inode(3);
    assert!(rt; left.mode == 0o100_644 && left.nlink == 1 && left.size == 1024);
    assert!(rt; left.generation == 1 && times(&left) == [1000, 1000, 2000]);
    Ok(())
}

#[test]
fn a_last_name_frees_the_block_of_addresses(rt: HostRuntime) -> Result<(), Fail> {
    let mut small = volume(rt.alloc(), FRESH)?;
    let mut listing = [0; 512];
    listing[4] = 20;
    small.set(19, &listing)?;
    let long = Inode {
        size: 12 * 512,
        single: 19,
        ..small.inode(3)
    };
    small.set_inode(3, &long)?;
    small.sets = Sets::new(small.alloc, 64, 17)?;
    let removed = remove(&mut small, b"f", &user(0), 2000)?;
    run(&mut small, &removed)?;
    assert!(rt; small.sets.blocks.count() == 4 && removed.freed.blocks.len() == 4);
    assert!(rt; small.sets.blocks.has(5) && small.sets.blocks.has(6));
    assert!(rt; small.sets.blocks.has(19) && small.sets.blocks.has(20));
    Ok(())
}

// The volume whose root has 32 slots, all used but one of this number.
fn full(alloc: Global, empty: u32) -> Result<Small, Fail> {
    let mut small = volume(alloc, FRESH)?;
    small.fill(32, empty)?;
    Ok(small)
}

#[test]
fn a_name_in_a_full_directory_takes_a_block(rt: HostRuntime) -> Result<(), Fail> {
    let mut small = full(rt.alloc(), 32)?;
    small.sets = Sets::new(small.alloc, 64, 17)?;
    small.sets.inodes.give(4);
    let none = create(&mut small, b"new", &NOTHING, 2000)?;
    assert!(rt; is_refused(&none, Stat::Nospc) && small.sets.inodes.count() == 1);
    small.sets.blocks.give(40);
    let made = create(&mut small, b"new", &NOTHING, 2000)?;
    assert!(rt; answers(&made, 4, 1) && sectors_put(&made.plan) == [2, 40, 2, 0]);
    run(&mut small, &made)?;
    assert!(rt; small.sets.blocks.count() == 0 && small.sets.inodes.count() == 0);
    let slots = small.store.sector(40);
    assert!(rt; slot(&slots, 0) == [4, b'n'] && slot(&slots, 1) == [0, 0]);
    let root = small.inode(2);
    assert!(rt; root.size == 528 && root.direct == [4, 40, 0, 0, 0, 0, 0, 0, 0, 0]);
    assert!(rt; times(&root) == [1000, 2000, 2000]);
    Ok(())
}

#[test]
fn a_name_takes_the_first_empty_slot(rt: HostRuntime) -> Result<(), Fail> {
    let mut small = full(rt.alloc(), 17)?;
    let made = create(&mut small, b"fourteen bytes", &NOTHING, 2000)?;
    assert!(rt; answers(&made, 4, 1) && sectors_put(&made.plan) == [2, 4, 2, 0]);
    run(&mut small, &made)?;
    let slots = small.store.sector(4);
    assert!(rt;
        slot(&slots, 17) == [4, b'f'] && slots[287] == b's' && slot(&slots, 18) == [3, b'u']
    );
    assert!(rt; small.inode(2).size == 512 && small.sets.blocks.count() == 57);
    Ok(())
}

#[test]
fn a_refused_call_plans_nothing(rt: HostRuntime) -> Result<(), Fail> {
    let mut small = volume(rt.alloc(), FRESH)?;
    for (name, status) in [
        (b"..".as_slice(), Stat::Acces),
        (b"fifteen bytes..".as_slice(), Stat::Nametoolong),
    ] {
        let made = create(&mut small, name, &NOTHING, 2000)?;
        assert!(rt; is_refused(&made, status));
        let removed = remove(&mut small, name, &user(100), 2000)?;
        assert!(rt; is_refused(&removed, status));
    }
    let absent = remove(&mut small, b"g", &user(100), 2000)?;
    assert!(rt; is_refused(&absent, Stat::Noent));
    let denied = remove(&mut small, b"f", &user(100), 2000)?;
    assert!(rt; is_refused(&denied, Stat::Acces));
    Ok(())
}

#[test]
fn a_read_only_volume_refuses_both(rt: HostRuntime) -> Result<(), Fail> {
    let shape = Shape {
        read_only: 1,
        ..FRESH
    };
    let mut small = volume(rt.alloc(), shape)?;
    let made = create(&mut small, b"..", &NOTHING, 2000)?;
    assert!(rt; is_refused(&made, Stat::Rofs));
    let removed = remove(&mut small, b"f", &user(0), 2000)?;
    assert!(rt; is_refused(&removed, Stat::Rofs));
    Ok(())
}

#[test]
fn a_name_that_is_there_gets_a_size(rt: HostRuntime) -> Result<(), Fail> {
    let mut small = volume(rt.alloc(), FRESH)?;
    let wanted = Sattr {
        size: Some(512),
        ..NOTHING
    };
    let shorter = create(&mut small, b"f", &wanted, 2000)?;
    assert!(rt; answers(&shorter, 3, 1) && sectors_put(&shorter.plan) == [2, 0, 0, 0]);
    assert!(rt; shorter.freed.blocks.len() == 1 && shorter.freed.inode.is_none());
    run(&mut small, &shorter)?;
    assert!(rt; small.sets.blocks.has(6) && small.sets.inodes.count() == 13);
    let file = small.inode(3);
    assert!(rt; file.size == 512 && file.direct == [5, 0, 0, 0, 0, 0, 0, 0, 0, 0]);
    assert!(rt; times(&file) == [1000, 2000, 2000]);
    Ok(())
}
