//! RENAMEs onto a name that stands.

use super::{Tree, is_done, is_left, is_timed, sectors_put, slot, times};
use files_model::Reply;
use plan_name::Planned;
use std::test::Fail;
use v7_strokes::{slot_of, with_slot};
use volume_mem::FRESH;

// The call is done, and frees file 6 with its two blocks.
fn ends_the_other(planned: &Planned) -> bool {
    let blocks = planned.freed.blocks.as_slice();
    matches!(planned.reply, Reply::Done)
        && planned.freed.inode == Some(6)
        && blocks.len() == 2
        && blocks.contains(&9)
        && blocks.contains(&10)
}

// File 6 has ended, and its inode keeps its generation.
fn is_ended(tree: &Tree) -> bool {
    let ended = tree.inode(6);
    let none = ended.mode == 0 && ended.nlink == 0 && ended.size == 0;
    none && ended.direct == [0; 10] && ended.generation == 1 && times(&ended) == [0, 0, 0]
}

#[test]
fn a_file_takes_the_name_of_one_that_ends(rt: HostRuntime) -> Result<(), Fail> {
    let mut tree = Tree::new(rt.alloc(), FRESH)?;
    let replaced = tree.rename(3, b"a", 4, b"b", 0)?;
    assert!(rt; ends_the_other(&replaced) && sectors_put(&replaced) == [6, 5, 2, 0, 0]);
    let puts = replaced.plan.puts();
    assert!(rt; puts.len() == 3 && slot(&puts[0].1, 2) == [5, b'b']);
    assert!(rt; slot(&puts[1].1, 1) == [2, b'.'] && slot(&puts[1].1, 2) == [0, 0]);
    tree.run(&replaced)?;
    assert!(rt; is_timed(&tree.inode(3), 48) && is_timed(&tree.inode(4), 48));
    assert!(rt; is_left(&tree.inode(5)) && is_ended(&tree));
    assert!(rt; tree.sets.blocks.count() == 1 && tree.sets.inodes.count() == 0);
    Ok(())
}

#[test]
fn a_replaced_file_with_another_name_stays(rt: HostRuntime) -> Result<(), Fail> {
    let mut tree = Tree::new(rt.alloc(), FRESH)?;
    tree.set_links(6, 2)?;
    let replaced = tree.rename(3, b"a", 4, b"b", 0)?;
    assert!(rt; is_done(&replaced) && sectors_put(&replaced) == [6, 5, 2, 0, 0]);
    tree.run(&replaced)?;
    assert!(rt; slot(&tree.store.sector(6), 2) == [5, b'b']);
    let other = tree.inode(6);
    assert!(rt; other.mode == 0o100_644 && other.nlink == 1 && other.size == 1024);
    assert!(rt; other.direct[0] == 9 && other.direct[1] == 10);
    assert!(rt; times(&other) == [1000, 1000, 2000] && is_left(&tree.inode(5)));
    Ok(())
}

#[test]
fn two_slots_of_one_sector_are_one_put(rt: HostRuntime) -> Result<(), Fail> {
    let mut tree = Tree::new(rt.alloc(), FRESH)?;
    tree.fill(3, 5, 4)?;
    let replaced = tree.rename(3, b"a", 3, b"used", 0)?;
    assert!(rt; ends_the_other(&replaced) && sectors_put(&replaced) == [5, 2, 0, 0, 0]);
    tree.run(&replaced)?;
    let names = tree.store.sector(5);
    assert!(rt; slot(&names, 2) == [0, 0] && slot(&names, 3) == [5, b'u']);
    assert!(rt; is_timed(&tree.inode(3), 64) && is_left(&tree.inode(5)) && is_ended(&tree));
    assert!(rt; times(&tree.inode(4)) == [1000, 1000, 1000]);
    Ok(())
}

#[test]
fn two_names_of_one_node_stay(rt: HostRuntime) -> Result<(), Fail> {
    let mut tree = Tree::new(rt.alloc(), FRESH)?;
    let both = with_slot(&tree.store.sector(6), 2, &slot_of(5, b"b"));
    tree.set(6, &both)?;
    for (from, name, to, new_name) in [
        (3, b"a".as_slice(), 3, b"a".as_slice()),
        (3, b"a".as_slice(), 4, b"b".as_slice()),
        (2, b"x".as_slice(), 2, b"x".as_slice()),
    ] {
        // nobody's permission is asked
        let unchanged = tree.rename(from, name, to, new_name, 100)?;
        assert!(rt;
            is_done(&unchanged) && unchanged.plan.puts().len() == 0,
            "from {from}"
        );
    }
    Ok(())
}
