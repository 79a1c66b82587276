//! New files on a small volume: a root, inode 2, whose three slots stand in sector 4, and file 3 with its name in slot 2.

mod calls;

use super::*;
use files_model::{Attr, Kind, Name, Reply, Sattr, Stat};
use small_volumes::{NOTHING, ROOT_ID, Small, user};
use stable::{Failed, Plan, Stable};
use std::alloc::Global;
use std::test::Fail;
use store_mem::Memory;
use v7_layout::Inode;
use v7_read::inode_in;
use v7_sets::Sets;
use v7_strokes::{Blocks, slot_of};
use volume_mem::FRESH;

fn volume(alloc: Global) -> Result<Memory, Fail> {
    Ok(Small::new(alloc, FRESH)?.store)
}

// File 4 is made at second 2000, in slot `index` of the root.
fn make<S: Stable>(store: &mut S, plan: &mut Plan, index: u32) -> Result<(), Failed> {
    if store.sectors() < 64 || plan.room() < 4 || plan.puts().len() > 0 {
        return Err(Failed);
    }
    let inode = new_file(&NOTHING, &user(100), 2000, 1);
    let entry = Entry {
        directory: 2,
        index,
        sector: 4,
        slot: slot_of(4, b"new"),
    };
    if index < 3 {
        return add_in_place(store, plan, 4, &inode, &entry, 2000);
    }
    let blocks = Blocks {
        direct: [4, 0, 0, 0, 0, 0, 0, 0, 0, 0],
        single: 0,
    };
    let longer = Longer {
        fresh: false,
        map: None,
        blocks,
    };
    add_at_end(store, plan, 4, &inode, &entry, &longer, 2000)
}

#[test]
fn a_file_is_made_in_a_slot_and_at_the_end(rt: HostRuntime) -> Result<(), Fail> {
    let alloc = rt.alloc();
    let mut store = volume(alloc)?;
    for (index, size) in [(2, 48), (3, 64)] {
        let mut plan = Plan::new(alloc, 4).map_err(|_| "memory")?;
        make(&mut store, &mut plan, index).map_err(|_| "store")?;
        let puts = plan.puts();
        assert!(rt; puts.len() == 3);
        assert!(rt; puts[0].0 == 2 && puts[1].0 == 4 && puts[2].0 == 2);
        let slots = puts[1].1;
        let at = 16 * index as usize;
        assert!(rt; at < 64 && slots[at] == 4 && slots[at + 2] == b'n' && slots[at + 5] == 0);
        let file = inode_in(&puts[0].1, 4);
        assert!(rt; file.mode == 0o100_666 && file.nlink == 1 && file.uid == 100 && file.size == 0);
        let root = inode_in(&puts[2].1, 2);
        assert!(rt;
            root.size == size && root.mtime == 2000 && root.ctime == 2000 && root.atime == 1000
        );
    }
    Ok(())
}

// A file is made at second 2000 in slot 2 of the root.
fn plan_first(alloc: Global, store: &mut Memory, sets: &mut Sets) -> Result<Planned, Fail> {
    if store.sectors() < 64 {
        return Err("no volume".into());
    }
    let spot = Spot {
        directory: ROOT_ID,
        index: 2,
        sector: 4,
    };
    let name = Name::copy(b"new");
    let planned = plan_new_in_place(
        alloc,
        store,
        sets,
        &directory(48),
        &spot,
        &name,
        &NOTHING,
        &user(100),
        2000,
    );
    Ok(planned.map_err(|_| "not planned")?)
}

#[test]
fn a_number_is_taken_once(rt: HostRuntime) -> Result<(), Fail> {
    let alloc = rt.alloc();
    let mut store = volume(alloc)?;
    let mut sets = Sets::new(alloc, 64, 17).map_err(|_| "memory")?;
    sets.inodes.give(5);
    let first = plan_first(alloc, &mut store, &mut sets)?;
    assert!(rt; first.plan.puts().len() == 3 && sets.inodes.count() == 0);
    let Reply::Handle { file, attr } = first.reply else {
        return Err("no handle".into());
    };
    assert!(rt; file.ino == 5 && file.generation == 1 && attr.fileid == 5 && attr.mode == 0o666);
    let second = plan_first(alloc, &mut store, &mut sets)?;
    assert!(rt; second.plan.puts().len() == 0);
    assert!(rt; matches!(second.reply, Reply::Refused(Stat::Nospc)));
    Ok(())
}

#[test]
fn a_name_that_is_there_gets_its_size_or_stays(rt: HostRuntime) -> Result<(), Fail> {
    let alloc = rt.alloc();
    let mut store = volume(alloc)?;
    for (size, puts, freed) in [(Some(0), 1, 2), (None, 0, 0)] {
        let wanted = Sattr { size, ..NOTHING };
        let planned = plan_standing_name(alloc, &mut store, 3, &wanted, &user(100), 2000);
        let planned = planned.map_err(|_| "not planned")?;
        assert!(rt; planned.plan.puts().len() == puts && planned.freed.blocks.len() == freed);
        assert!(rt; matches!(planned.reply, Reply::Handle { .. }));
    }
    let root = plan_standing_name(alloc, &mut store, 2, &NOTHING, &user(100), 2000);
    let root = root.map_err(|_| "not planned")?;
    assert!(rt; matches!(root.reply, Reply::Refused(Stat::Exist)));
    Ok(())
}

fn named(bytes: &[u8]) -> Name {
    if bytes.len() > 255 {
        return Name::copy(b"too long");
    }
    Name::copy(bytes)
}

#[test]
fn names_are_refused_in_order(rt: HostRuntime) -> Result<(), Fail> {
    for (name, refusal) in [
        (b"fourteen bytes".as_slice(), None),
        (b"fifteen bytes..".as_slice(), Some(Stat::Nametoolong)),
        (b"fifteen/bytes..".as_slice(), Some(Stat::Acces)),
        (b"..".as_slice(), Some(Stat::Acces)),
        (b"".as_slice(), Some(Stat::Acces)),
    ] {
        assert_eq!(rt; name_refusal(&named(name)), refusal);
    }
    let device = create_refusal(false, Kind::Directory, &named(b"f"), Some(0o020_644));
    assert_eq!(rt; device, Some(Stat::Perm));
    Ok(())
}

// A directory of user 100.
fn directory(size: u32) -> Attr {
    Attr {
        kind: Kind::Directory,
        mode: 0o755,
        nlink: 2,
        uid: 100,
        gid: 100,
        size,
        fileid: 2,
        atime: 1000,
        mtime: 1000,
        ctime: 1000,
    }
}

#[test]
fn a_full_sector_takes_a_free_block(rt: HostRuntime) -> Result<(), Fail> {
    let mut sets = Sets::new(rt.alloc(), 64, 17).map_err(|_| "memory")?;
    let full = directory(512);
    assert_eq!(rt;
        judge_new(&full, true, &sets, &NOTHING, &user(100)),
        Err(Stat::Nospc)
    );
    sets.inodes.give(5);
    sets.inodes.give(4);
    assert_eq!(rt;
        judge_new(&full, true, &sets, &NOTHING, &user(100)),
        Err(Stat::Nospc)
    );
    assert_eq!(rt; judge_new(&full, false, &sets, &NOTHING, &user(100)), Ok(4));
    sets.blocks.give(9);
    assert_eq!(rt; judge_new(&full, true, &sets, &NOTHING, &user(100)), Ok(4));
    let eleventh = directory(5120);
    assert_eq!(rt;
        judge_new(&eleventh, true, &sets, &NOTHING, &user(100)),
        Err(Stat::Nospc)
    );
    let longest = directory(70_656);
    assert_eq!(rt;
        judge_new(&longest, true, &sets, &NOTHING, &user(100)),
        Err(Stat::Fbig)
    );
    Ok(())
}

// The volume whose root has 32 slots, all of its sector 4, and the root's inode.
fn full_volume(alloc: Global) -> Result<(Memory, Inode), Fail> {
    let mut small = Small::new(alloc, FRESH)?;
    small.fill(32, 32)?;
    let root = small.inode(2);
    Ok((small.store, root))
}

#[test]
fn a_longer_directory_takes_the_lowest_free_blocks(rt: HostRuntime) -> Result<(), Fail> {
    let alloc = rt.alloc();
    let (mut store, root) = full_volume(alloc)?;
    let mut sets = Sets::new(alloc, 64, 17).map_err(|_| "memory")?;
    sets.blocks.give(9);
    sets.blocks.give(7);
    for (size, sector, first, second) in [
        (48, 4, None, None),
        (512, 7, Some(7), None),
        (5120, 7, Some(7), Some(9)),
    ] {
        let inode = Inode { size, ..root };
        let laid = lay_out(&mut store, &sets.blocks, &inode).map_err(|_| "store")?;
        let Some(laid) = laid else {
            return Err("no room".into());
        };
        assert!(rt; laid.sector == sector && laid.new.sector == first && laid.new.map == second);
        if let Some(listing) = laid.longer.map {
            assert!(rt; listing.block == 9 && listing.bytes[0] == 7 && listing.bytes[4] == 0);
            take_new(&mut sets.blocks, &laid.new);
        }
    }
    assert!(rt; sets.blocks.count() == 0);
    let none = lay_out(&mut store, &sets.blocks, &root).map_err(|_| "store")?;
    assert!(rt; none.is_none());
    Ok(())
}

// A file is made at second 2000 past the slots of the root, by the superuser.
fn plan_last(
    alloc: Global,
    store: &mut Memory,
    sets: &mut Sets,
    inode: &Inode,
) -> Result<Planned, Fail> {
    if store.sectors() < 64 {
        return Err("no volume".into());
    }
    let cred = user(0);
    let name = Name::copy(b"new");
    let planned = plan_new_at_end(
        alloc, store, sets, ROOT_ID, inode, &name, &NOTHING, &cred, 2000,
    );
    Ok(planned.map_err(|_| "not planned")?)
}

#[test]
fn a_name_past_32_slots_takes_a_free_block(rt: HostRuntime) -> Result<(), Fail> {
    let alloc = rt.alloc();
    let (mut store, root) = full_volume(alloc)?;
    let mut sets = Sets::new(alloc, 64, 17).map_err(|_| "memory")?;
    sets.inodes.give(5);
    let none = plan_last(alloc, &mut store, &mut sets, &root)?;
    assert!(rt; none.plan.puts().len() == 0 && sets.inodes.count() == 1);
    assert!(rt; matches!(none.reply, Reply::Refused(Stat::Nospc)));
    sets.blocks.give(9);
    let planned = plan_last(alloc, &mut store, &mut sets, &root)?;
    assert!(rt; matches!(planned.reply, Reply::Handle { .. }));
    assert!(rt; sets.blocks.count() == 0 && sets.inodes.count() == 0);
    let puts = planned.plan.puts();
    assert!(rt; puts.len() == 3 && puts[1].0 == 9 && puts[1].1[0] == 5);
    let after = inode_in(&puts[2].1, 2);
    assert!(rt; after.size == 528 && after.direct[0] == 4 && after.direct[1] == 9);
    Ok(())
}
