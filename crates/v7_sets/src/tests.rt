//! Sets of a small volume.

use crate::Sets;
use std::test::Fail;

#[test]
fn what_is_given_is_free(rt: HostRuntime) -> Result<(), Fail> {
    let Ok(mut sets) = Sets::new(rt.alloc(), 64, 17) else {
        assert!(rt; false);
        return Ok(());
    };
    assert!(rt; sets.blocks.count() == 0 && sets.inodes.count() == 0);
    assert!(rt; sets.blocks.size() == 64 && sets.inodes.size() == 17);
    sets.blocks.give(63);
    sets.inodes.give(16);
    assert!(rt; sets.blocks.take_lowest() == Some(63));
    assert!(rt; sets.inodes.take_lowest() == Some(16));
    Ok(())
}
