//! Links on a small volume: a root, inode 2, whose three slots stand in sector 4, and file 3 with blocks 5 and 6.

use crate::plan_symlink;
use files_model::{Name, Reply, Stat, Text};
use plan_name::Planned;
use small_volumes::{NOTHING, ROOT_ID, Small, user};
use std::alloc::Global;
use std::test::Fail;
use v7_read::inode_in;
use volume_mem::FRESH;

// A link `l` to 1,024 bytes `x` in the root, at second 2000, by the superuser.
fn link(small: &mut Small) -> Result<Planned, Fail> {
    let name = Name::copy(b"l");
    let text = Text::copy(small.alloc, &[b'x'; 1024])?;
    let planned = plan_symlink(
        small.alloc,
        &mut small.store,
        &mut small.sets,
        ROOT_ID,
        &name,
        &text,
        &NOTHING,
        &user(0),
        2000,
    );
    Ok(planned.map_err(|_| "not planned")?)
}

#[test]
fn a_link_of_1024_bytes_takes_two_blocks(rt: HostRuntime) -> Result<(), Fail> {
    let mut small = Small::new(rt.alloc(), FRESH)?;
    small.sets.inodes.give(4);
    for block in 7..64 {
        small.sets.blocks.give(block);
    }
    let planned = link(&mut small)?;
    assert!(rt; matches!(planned.reply, Reply::Done));
    assert!(rt;
        small.sets.blocks.count() == 55 && !small.sets.blocks.has(7) && !small.sets.blocks.has(8)
    );
    assert!(rt; small.sets.inodes.count() == 0);
    let puts = planned.plan.puts();
    assert!(rt; puts.len() == 5 && puts[0].0 == 7 && puts[1].0 == 8 && puts[2].0 == 2);
    assert!(rt; puts[0].1 == [b'x'; 512] && puts[1].1 == [b'x'; 512]);
    let made = inode_in(&puts[2].1, 4);
    assert!(rt; made.mode == 0o120_777 && made.nlink == 1 && made.uid == 0 && made.size == 1024);
    assert!(rt; made.direct == [7, 8, 0, 0, 0, 0, 0, 0, 0, 0] && made.mtime == 2000);
    assert!(rt; puts[3].0 == 4 && puts[3].1[48] == 4 && puts[3].1[50] == b'l');
    let root = inode_in(&puts[4].1, 2);
    assert!(rt; puts[4].0 == 2 && root.size == 64 && root.mtime == 2000);
    Ok(())
}

#[test]
fn a_text_that_takes_one_block_too_many_is_refused(rt: HostRuntime) -> Result<(), Fail> {
    let mut small = Small::new(rt.alloc(), FRESH)?;
    small.sets.inodes.give(4);
    small.sets.blocks.give(9);
    let none = link(&mut small)?;
    assert!(rt; matches!(none.reply, Reply::Refused(Stat::Nospc)));
    assert!(rt;
        none.plan.puts().len() == 0 && small.sets.blocks.has(9) && small.sets.inodes.has(4)
    );
    small.sets.blocks.give(12);
    let planned = link(&mut small)?;
    assert!(rt; matches!(planned.reply, Reply::Done) && small.sets.blocks.count() == 0);
    let puts = planned.plan.puts();
    assert!(rt; puts.len() == 5 && puts[0].0 == 9 && puts[1].0 == 12);
    Ok(())
}
