//! Rigs with boards.

use nvram_map::format;
use rig::Rig;
use rig_mem::MemRig;
use std::alloc::Global;
use std::test::Fail;
use volume_mem::{FRESH, test_volume};

/// A rig with this disk and a board of so many buffers, 64 at the most, that is formatted for `VOLA00`. Its device calls are counted from here on.
pub fn with_board(alloc: Global, disk: &[[u8; 512]], buffers: u32) -> Result<MemRig, Fail> {
    let mut rig = MemRig::new(alloc, 64, buffers.clamp(2, 64))?;
    for (sector, bytes) in (0..64).zip(disk.iter()) {
        if sector < rig.sectors() && rig.write(sector, bytes).is_err() {
            return Err("the disk isn't made".into());
        }
    }
    if rig.buffers() == 0 || format(&mut rig, *b"VOLA00").is_err() {
        return Err("the board isn't formatted".into());
    }
    Ok(rig.crash(true, 0))
}

/// The test volume with such a board.
pub fn small(alloc: Global) -> Result<MemRig, Fail> {
    with_board(alloc, &test_volume(alloc, FRESH)?, 64)
}
