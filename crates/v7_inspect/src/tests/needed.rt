//! The blocks of the test volume.

use crate::judge_inodes;
use std::test::Fail;
use store_mem::Memory;
use v7_damage::find_damage;
use volume_mem::{FRESH, test_volume};

#[test]
fn the_blocks_of_the_root_and_the_file_are_needed(rt: HostRuntime) -> Result<(), Fail> {
    let mut sectors = test_volume(rt.alloc(), FRESH)?;
    // a store asks that its sectors can be numbered
    sectors.truncate(64);
    let mut store = Memory::new(rt.alloc(), &sectors)?;
    let Ok(known) = find_damage(rt.alloc(), &mut store) else {
        assert!(rt; false);
        return Ok(());
    };
    let Ok(judged) = judge_inodes(rt.alloc(), &mut store, &known) else {
        assert!(rt; false);
        return Ok(());
    };
    assert!(rt; judged.strong);
    assert!(rt; judged.used == 3);
    for block in 1..64 {
        assert!(rt; judged.needed.has(block) == (4..7).contains(&block));
    }
    assert!(rt; store.puts == 0);
    Ok(())
}
