//! RENAMEs that make a directory longer.

use super::{Tree, is_done, is_left, is_timed, sectors_put, slot};
use std::test::Fail;
use v7_read::inode_in;
use volume_mem::FRESH;

#[test]
fn a_name_comes_past_the_last_slot(rt: HostRuntime) -> Result<(), Fail> {
    let mut tree = Tree::new(rt.alloc(), FRESH)?;
    let moved = tree.rename(3, b"a", 4, b"c", 0)?;
    assert!(rt; is_done(&moved) && sectors_put(&moved) == [6, 2, 5, 2, 0]);
    let puts = moved.plan.puts();
    assert!(rt; puts.len() == 4 && inode_in(&puts[1].1, 4).size == 64);
    tree.run(&moved)?;
    let new = tree.store.sector(6);
    assert!(rt; slot(&new, 2) == [6, b'b'] && slot(&new, 3) == [5, b'c']);
    assert!(rt; slot(&tree.store.sector(5), 2) == [0, 0]);
    assert!(rt; is_timed(&tree.inode(3), 48) && is_timed(&tree.inode(4), 64));
    assert!(rt; is_left(&tree.inode(5)) && tree.sets.blocks.count() == 1);
    Ok(())
}

#[test]
fn a_name_in_a_full_directory_takes_a_block(rt: HostRuntime) -> Result<(), Fail> {
    let mut tree = Tree::new(rt.alloc(), FRESH)?;
    tree.fill(4, 6, 32)?;
    let moved = tree.rename(3, b"a", 4, b"c", 0)?;
    assert!(rt; is_done(&moved) && sectors_put(&moved) == [40, 2, 5, 2, 0]);
    tree.run(&moved)?;
    let new = tree.store.sector(40);
    assert!(rt; slot(&new, 0) == [5, b'c'] && slot(&new, 1) == [0, 0]);
    assert!(rt; slot(&tree.store.sector(5), 2) == [0, 0]);
    let longer = tree.inode(4);
    assert!(rt; is_timed(&longer, 528) && longer.direct == [6, 40, 0, 0, 0, 0, 0, 0, 0, 0]);
    assert!(rt; is_timed(&tree.inode(3), 48) && is_left(&tree.inode(5)));
    assert!(rt; tree.sets.blocks.count() == 0);
    Ok(())
}
