//! RMDIRs planned whole, on a volume whose root has a directory `d`.

ghost use Rattle.std.specs.Prelude.{◌≢◌};
ghost use Rattle.v7_layout.specs.Written.{AddressesFit};

use super::*;
use files_model::{Name, Reply, Stat};
use plan_name::Planned;
use small_volumes::{ROOT_ID, Small, user};
use std::alloc::Global;
use std::test::Fail;
use v7_layout::Inode;
use v7_read::{inode_in, inode_sector_of};
use v7_strokes::{slot_of, with_inode, with_slot};
use volume_mem::{FRESH, ROOT, file};

// A directory in block 7: `.`, `..` and a third slot.
const DIRECTORY: Inode = Inode {
    direct: [7, 0, 0, 0, 0, 0, 0, 0, 0, 0],
    ..ROOT
};

fn set_inode(small: &mut Small, ino: u32, inode: &Inode) -> Result<(), Fail>
    requires { AddressesFit inode.now }
{
    let sector = inode_sector_of(ino);
    let bytes = with_inode(&small.store.sector(sector), ino, inode);
    small.set(sector, &bytes)
}

// The test volume with directory `d` of this number.
fn volume(alloc: Global, number: u16) -> Result<Small, Fail>
    requires { number ≢ 0 }
{
    let mut small = Small::new(alloc, FRESH)?;
    let root = with_slot(&small.store.sector(4), 3, &slot_of(number, b"d"));
    small.set(4, &root)?;
    let parent = Inode {
        nlink: 3,
        size: 64,
        ..ROOT
    };
    set_inode(&mut small, 2, &parent)?;
    set_inode(&mut small, number as u32, &DIRECTORY)?;
    let dots = with_slot(&[0; 512], 0, &slot_of(number, b"."));
    let dots = with_slot(&dots, 1, &slot_of(2, b".."));
    small.set(7, &dots)?;
    Ok(small)
}

// An RMDIR of `d` in the root by the user of this number, at second 2000.
fn rmdir(small: &mut Small, uid: u16) -> Result<Planned, Fail> {
    let name = Name::copy(b"d");
    let planned = plan_rmdir(
        small.alloc,
        &mut small.store,
        ROOT_ID,
        &name,
        &user(uid),
        2000,
    );
    Ok(planned.map_err(|_| "not planned")?)
}

// The call is refused so, and plans nothing.
fn is_refused(planned: &Planned, status: Stat) -> bool {
    let nothing = planned.plan.puts().len() == 0
        && planned.freed.blocks.len() == 0
        && planned.freed.inode.is_none();
    nothing && matches!(&planned.reply, Reply::Refused(refusal) if *refusal == status)
}

// The root has lost a directory, and is else as it was.
fn lost_one(root: &Inode) -> bool {
    root.nlink == 2 && root.size == 64 && root.mtime == 2000 && root.ctime == 2000
}

// The inode is free, and keeps its generation.
fn ended(inode: &Inode) -> bool {
    inode.mode == 0 && inode.nlink == 0 && inode.direct[0] == 0 && inode.generation == 1
}

#[test]
fn an_empty_directory_is_taken_away(rt: HostRuntime) -> Result<(), Fail> {
    let mut small = volume(rt.alloc(), 9)?;
    let planned = rmdir(&mut small, 0)?;
    assert!(rt; matches!(planned.reply, Reply::Done) && planned.freed.inode == Some(9));
    assert!(rt; planned.freed.blocks.len() == 1 && planned.freed.blocks[0] == 7);
    let puts = planned.plan.puts();
    assert!(rt; puts.len() == 3 && puts[0].0 == 4 && puts[1].0 == 2 && puts[2].0 == 3);
    assert!(rt; puts[0].1[32] == 3 && puts[0].1[48] == 0 && puts[0].1[50] == 0);
    assert!(rt; lost_one(&inode_in(&puts[1].1, 2)) && ended(&inode_in(&puts[2].1, 9)));
    Ok(())
}

#[test]
fn two_inodes_of_one_sector_are_one_put(rt: HostRuntime) -> Result<(), Fail> {
    let mut small = volume(rt.alloc(), 4)?;
    let planned = rmdir(&mut small, 0)?;
    assert!(rt; matches!(planned.reply, Reply::Done) && planned.freed.inode == Some(4));
    let puts = planned.plan.puts();
    assert!(rt; puts.len() == 2 && puts[0].0 == 4 && puts[1].0 == 2);
    assert!(rt; lost_one(&inode_in(&puts[1].1, 2)) && ended(&inode_in(&puts[1].1, 4)));
    Ok(())
}

#[test]
fn a_directory_with_an_entry_stays(rt: HostRuntime) -> Result<(), Fail> {
    let mut small = volume(rt.alloc(), 9)?;
    let denied = rmdir(&mut small, 100)?;
    assert!(rt; is_refused(&denied, Stat::Acces));
    let linked = Inode {
        nlink: 2,
        ..file(FRESH)
    };
    set_inode(&mut small, 3, &linked)?;
    let named = with_slot(&small.store.sector(7), 2, &slot_of(3, b"f"));
    small.set(7, &named)?;
    let planned = rmdir(&mut small, 100)?;
    assert!(rt; is_refused(&planned, Stat::Notempty));
    Ok(())
}
