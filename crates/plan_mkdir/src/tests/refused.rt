//! MKDIRs that are refused, which plan nothing and leave what is free.

use super::{NOTHING, ROOT, Small, is_made};
use files_model::{FileId, Reply, Stat};
use plan_name::Planned;
use std::test::Fail;
use v7_layout::Inode;
use v7_sets::Sets;
use volume_mem::{FRESH, Shape};

// The call is refused so, and plans nothing.
fn is_refused(planned: &Planned, status: Stat) -> bool {
    let nothing = planned.plan.puts().len() == 0
        && planned.freed.blocks.len() == 0
        && planned.freed.inode.is_none();
    nothing && matches!(&planned.reply, Reply::Refused(refusal) if *refusal == status)
}

// So many blocks and i-numbers are free.
fn has_free(sets: &Sets, blocks: u32, inodes: u32) -> bool {
    sets.blocks.count() == blocks && sets.inodes.count() == inodes
}

// The root gets so many links.
fn set_links(small: &mut Small, nlink: u16) -> Result<(), Fail> {
    let root = Inode {
        nlink,
        ..small.inode(2)
    };
    small.set_inode(2, &root)
}

#[test]
fn a_refused_name_plans_nothing(rt: HostRuntime) -> Result<(), Fail> {
    let mut small = Small::full(rt.alloc(), 17)?;
    for (name, uid, status) in [
        (b"".as_slice(), 0, Stat::Acces),
        (b".".as_slice(), 0, Stat::Acces),
        (b"..".as_slice(), 0, Stat::Acces),
        (b"a/b".as_slice(), 0, Stat::Acces),
        (b"fifteen bytes..".as_slice(), 100, Stat::Nametoolong),
        // the name is asked before the permission
        (b"f".as_slice(), 100, Stat::Exist),
        (b"new".as_slice(), 100, Stat::Acces),
    ] {
        let refused = small.mkdir(ROOT, name, &NOTHING, uid)?;
        assert!(rt; is_refused(&refused, status), "status {status:?}");
        assert!(rt; has_free(&small.sets, 1, 1));
    }
    Ok(())
}

#[test]
fn a_refused_parent_plans_nothing(rt: HostRuntime) -> Result<(), Fail> {
    let mut small = Small::new(rt.alloc(), FRESH)?;
    for (ino, generation, status) in [
        (0, 1, Stat::Stale),
        (2, 2, Stat::Stale),
        (9, 7, Stat::Stale),
        (17, 1, Stat::Stale),
        (3, 1, Stat::Notdir),
    ] {
        let refused = small.mkdir(FileId { ino, generation }, b"..", &NOTHING, 0)?;
        assert!(rt; is_refused(&refused, status), "at i-number {ino}");
        assert!(rt; has_free(&small.sets, 1, 1));
    }
    Ok(())
}

#[test]
fn a_read_only_volume_refuses(rt: HostRuntime) -> Result<(), Fail> {
    let shape = Shape {
        read_only: 1,
        ..FRESH
    };
    let mut small = Small::new(rt.alloc(), shape)?;
    let refused = small.mkdir(ROOT, b"..", &NOTHING, 0)?;
    assert!(rt; is_refused(&refused, Stat::Rofs) && has_free(&small.sets, 1, 1));
    Ok(())
}

#[test]
fn a_want_of_room_leaves_what_is_free(rt: HostRuntime) -> Result<(), Fail> {
    let alloc = rt.alloc();
    let mut blockless = Small::full(alloc, 17)?;
    blockless.sets.blocks.take(40);
    let refused = blockless.mkdir(ROOT, b"new", &NOTHING, 0)?;
    assert!(rt; is_refused(&refused, Stat::Nospc) && has_free(&blockless.sets, 0, 1));
    let mut numberless = Small::full(alloc, 17)?;
    numberless.sets.inodes.take(9);
    let refused = numberless.mkdir(ROOT, b"new", &NOTHING, 0)?;
    assert!(rt; is_refused(&refused, Stat::Nospc) && has_free(&numberless.sets, 1, 0));
    // the root takes a block besides
    let mut full = Small::full(alloc, 32)?;
    let refused = full.mkdir(ROOT, b"new", &NOTHING, 0)?;
    assert!(rt; is_refused(&refused, Stat::Nospc) && has_free(&full.sets, 1, 1));
    Ok(())
}

#[test]
fn a_parent_has_32767_links_at_most(rt: HostRuntime) -> Result<(), Fail> {
    let mut small = Small::full(rt.alloc(), 17)?;
    set_links(&mut small, 32_767)?;
    let refused = small.mkdir(ROOT, b"new", &NOTHING, 0)?;
    assert!(rt; is_refused(&refused, Stat::Nospc) && has_free(&small.sets, 1, 1));
    set_links(&mut small, 32_766)?;
    let made = small.mkdir(ROOT, b"new", &NOTHING, 0)?;
    assert!(rt; is_made(&made));
    small.run(&made)?;
    assert!(rt; small.inode(2).nlink == 32_767 && has_free(&small.sets, 0, 0));
    Ok(())
}
