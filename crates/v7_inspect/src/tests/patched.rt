//! The test volume with other bytes here and there.

ghost use Rattle.std.specs.Prelude.{◌≤◌, length};

use crate::{RepairFault, Seen, inspect};
use std::alloc::Global;
use std::test::Fail;
use store_mem::Memory;
use volume_mem::{FRESH, test_volume};

/// Another byte: its sector, its place there, and what it is.
pub(crate) type Patch = (usize, usize, u8);

// Puts the bytes into the sectors, but those past their ends.
fn patch(sectors: &mut Vec<[u8; 512]>, patches: &[Patch]) {
    for (sector, at, byte) in patches {
        if let Some(bytes) = sectors.get_mut(*sector) {
            if let Some(old) = bytes.get_mut(*at) {
                *old = *byte;
            }
        }
    }
}

/// What is seen of the test volume with these bytes.
pub(crate) fn inspected(
    alloc: Global,
    patches: &[Patch],
) -> Result<Result<Seen, RepairFault>, Fail> {
    let mut sectors = test_volume(alloc, FRESH)?;
    patch(&mut sectors, patches);
    // a store asks that its sectors can be numbered
    sectors.truncate(64);
    let mut store = Memory::new(alloc, &sectors)?;
    Ok(inspect(alloc, &mut store))
}
