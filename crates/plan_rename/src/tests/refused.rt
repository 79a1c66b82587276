//! RENAMEs that are refused, which plan nothing.

use super::{Tree, is_done};
use files_model::{Reply, Stat};
use plan_name::Planned;
use std::test::Fail;
use volume_mem::{FRESH, Shape};

// The call is refused so, plans nothing, and leaves the one free block.
fn is_refused(tree: &Tree, planned: &Planned, status: Stat) -> bool {
    let nothing = planned.plan.puts().len() == 0
        && planned.freed.blocks.len() == 0
        && planned.freed.inode.is_none();
    let free = tree.sets.blocks.count() == 1;
    nothing && free && matches!(&planned.reply, Reply::Refused(refusal) if *refusal == status)
}

#[test]
fn a_handle_that_names_no_directory_is_refused(rt: HostRuntime) -> Result<(), Fail> {
    let mut tree = Tree::new(rt.alloc(), FRESH)?;
    for (from, to, status) in [
        (9, 4, Stat::Stale),
        (3, 9, Stat::Stale),
        // a handle is asked before what it is of
        (5, 17, Stat::Stale),
        (5, 4, Stat::Notdir),
        (3, 5, Stat::Notdir),
    ] {
        let refused = tree.rename(from, b"..", to, b"b", 0)?;
        assert!(rt; is_refused(&tree, &refused, status), "from {from} to {to}");
    }
    Ok(())
}

#[test]
fn a_bad_name_is_refused(rt: HostRuntime) -> Result<(), Fail> {
    let mut tree = Tree::new(rt.alloc(), FRESH)?;
    for (bad, status) in [
        (b"".as_slice(), Stat::Acces),
        (b".".as_slice(), Stat::Acces),
        (b"..".as_slice(), Stat::Acces),
        (b"a/b".as_slice(), Stat::Acces),
        (b"fifteen bytes..".as_slice(), Stat::Nametoolong),
    ] {
        let old = tree.rename(3, bad, 4, b"b", 100)?;
        assert!(rt; is_refused(&tree, &old, status), "old, {status:?}");
        // the new name is asked before the old one is looked up
        let new = tree.rename(3, b"none", 4, bad, 100)?;
        assert!(rt; is_refused(&tree, &new, status), "new, {status:?}");
    }
    Ok(())
}

#[test]
fn the_kinds_of_two_nodes_are_asked_in_order(rt: HostRuntime) -> Result<(), Fail> {
    let mut tree = Tree::new(rt.alloc(), FRESH)?;
    for (from, name, to, new_name, status) in [
        (3, b"b".as_slice(), 4, b"b".as_slice(), Stat::Noent),
        (2, b"x".as_slice(), 2, b"y".as_slice(), Stat::Exist),
        (2, b"x".as_slice(), 4, b"b".as_slice(), Stat::Exist),
        (2, b"x".as_slice(), 4, b"c".as_slice(), Stat::Perm),
        (3, b"a".as_slice(), 2, b"y".as_slice(), Stat::Isdir),
        (3, b"a".as_slice(), 4, b"b".as_slice(), Stat::Acces),
        (3, b"a".as_slice(), 3, b"c".as_slice(), Stat::Acces),
    ] {
        // the permission comes last
        let refused = tree.rename(from, name, to, new_name, 100)?;
        assert!(rt;
            is_refused(&tree, &refused, status),
            "{status:?} from {from} to {to}"
        );
    }
    Ok(())
}

#[test]
fn both_directories_have_to_be_open_to_the_caller(rt: HostRuntime) -> Result<(), Fail> {
    let mut tree = Tree::new(rt.alloc(), FRESH)?;
    // writing without searching isn't enough
    for (from, to) in [
        (0o040_777, 0o040_755),
        (0o040_755, 0o040_777),
        (0o040_777, 0o040_776),
        (0o040_776, 0o040_777),
    ] {
        tree.set_mode(3, from)?;
        tree.set_mode(4, to)?;
        let refused = tree.rename(3, b"a", 4, b"b", 100)?;
        assert!(rt;
            is_refused(&tree, &refused, Stat::Acces),
            "{from:o} and {to:o}"
        );
    }
    tree.set_mode(3, 0o040_777)?;
    let done = tree.rename(3, b"a", 4, b"c", 100)?;
    assert!(rt; is_done(&done));
    Ok(())
}

#[test]
fn a_read_only_volume_refuses(rt: HostRuntime) -> Result<(), Fail> {
    let shape = Shape {
        read_only: 1,
        ..FRESH
    };
    let mut tree = Tree::new(rt.alloc(), shape)?;
    for name in [b"..".as_slice(), b"a".as_slice()] {
        let refused = tree.rename(3, name, 3, b"a", 0)?;
        assert!(rt; is_refused(&tree, &refused, Stat::Rofs));
    }
    Ok(())
}

#[test]
fn a_node_of_65535_links_keeps_its_slot(rt: HostRuntime) -> Result<(), Fail> {
    let mut tree = Tree::new(rt.alloc(), FRESH)?;
    tree.set_links(5, 65_535)?;
    for new_name in [b"b".as_slice(), b"c".as_slice()] {
        let refused = tree.rename(3, b"a", 4, new_name, 0)?;
        assert!(rt; is_refused(&tree, &refused, Stat::Nospc));
    }
    // one slot changes
    let named = tree.rename(3, b"a", 3, b"c", 0)?;
    assert!(rt; is_done(&named) && named.plan.puts().len() == 2);
    tree.set_links(5, 65_534)?;
    let moved = tree.rename(3, b"a", 4, b"c", 0)?;
    assert!(rt; is_done(&moved) && moved.plan.puts().len() == 4);
    Ok(())
}

#[test]
fn a_full_volume_has_no_block_for_a_name(rt: HostRuntime) -> Result<(), Fail> {
    let mut tree = Tree::new(rt.alloc(), FRESH)?;
    tree.fill(4, 6, 32)?;
    tree.sets.blocks.take(40);
    let refused = tree.rename(3, b"a", 4, b"c", 0)?;
    let nothing = refused.plan.puts().len() == 0;
    assert!(rt; nothing && matches!(refused.reply, Reply::Refused(Stat::Nospc)));
    // a name that stands takes none
    let replaced = tree.rename(3, b"a", 4, b"used", 0)?;
    assert!(rt; matches!(replaced.reply, Reply::Done) && replaced.plan.puts().len() == 3);
    Ok(())
}
