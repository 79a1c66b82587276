// A disk and a board in memory. Each call is done at once; what it changed is recorded, with what was there before.
ghost use Rattle.std.specs.Prelude.{◌≡◌, ◌<◌, ◌≤◌, ◌^◌, true, [], length, replicate, IfOk, vec_len};
ghost use Rattle.rig.specs.Devices.{HasShape, IsBoard, sizes_of};

mod crash;
mod device_calls;
mod sectors;
mod steering;

use crate::history::History;
use crate::trouble::Trouble;
use rig::{Battery, NoMemory};
use sectors::{are_whole, zero_sectors};
use std::alloc::Global;

/// A disk and a board in memory, which tell their contents. Calls can be made to fail, sectors to break, and the whole to crash.
///
/// The seven calls of a rig that can fail are its device calls, numbered from 1. One that changes the devices is
/// recorded; where there is no memory for that, or the clock is at its last moment, it fails without effect and the
/// count of faults rises. Any other fails only where that was asked for here.
#[derive(Drop)]
pub struct MemRig {
    disk: Vec<[u8; 512]>,
    words: Vec<u64>,
    buffers: Vec<[u8; 512]>,
    kept: bool,
    history: History,
    trouble: Trouble,
    writes: u64,
    readings: u64,
    last: Option<Battery>,
    battery: Battery,
    low_from: Option<u64>,
    ghost shape: { HasShape (sizes_of disk.items words.items buffers.items) (record { disk = disk.items; words = words.items; buffers = buffers.items; kept = kept }) },
    ghost board: { IsBoard (sizes_of disk.items words.items buffers.items) kept },
    ghost few: { length disk.items < 2 ^ 32 },
}

impl MemRig {
    ghost use Rattle.rig_mem.specs.Rigs.{mem_contents, mem_plan, zeros, words_for, IsNew};

    /// Zeros, kept, the battery Good, no faults, and no call made. A board has a word more than buffers. There is none where
    /// `buffers` is 0, and its battery then reads Low.
    pub fn new(alloc: Global, sectors: u32, buffers: u32) -> Result<MemRig, NoMemory>
        requires some { 0 < buffers → 2 ≤ buffers }
        requires most { buffers ≤ 2048 }
        ensures { IfOk result (IsNew (zeros sectors) (replicate (words_for buffers) 0) (zeros buffers)) }
    {
        let disk = zero_sectors(alloc, sectors)?;
        let words = if buffers == 0 { 0 } else { buffers + 1 };
        let words = vec![in alloc; 0; words as usize]?;
        let buffers = zero_sectors(alloc, buffers)?;
        Ok(MemRig::with_devices(alloc, disk, words, buffers))
    }

    /// A disk with these sectors, without a board, and no faults.
    pub fn with_disk(alloc: Global, disk: Vec<[u8; 512]>) -> MemRig
        requires { vec_len disk < 2 ^ 32 }
        ensures { IsNew disk.items [] [] result }
    {
        are_whole(&disk);
        MemRig::with_devices(alloc, disk, Vec::new(alloc), Vec::new(alloc))
    }

    // A disk and a board with this on them, and no call made.
    fn with_devices(
        alloc: Global,
        disk: Vec<[u8; 512]>,
        words: Vec<u64>,
        buffers: Vec<[u8; 512]>,
    ) -> MemRig
        requires shape { HasShape (sizes_of disk.items words.items buffers.items) (record { disk = disk.items; words = words.items; buffers = buffers.items; kept = true }) }
        requires board { IsBoard (sizes_of disk.items words.items buffers.items) true }
        requires few { length disk.items < 2 ^ 32 }
        ensures { IsNew disk.items words.items buffers.items result }
    {
        MemRig {
            disk,
            words,
            buffers,
            kept: true,
            history: History::new(alloc),
            trouble: Trouble::new(alloc),
            writes: 0,
            readings: 0,
            last: None,
            battery: Battery::Good,
            low_from: None,
        }
    }

    /// The sectors as they are now.
    pub fn disk(&self) -> &[[u8; 512]]
        ensures { result.now ≡ (mem_contents self.now).disk }
    {
        self.disk.as_slice()
    }

    /// How many device calls were made, up to 2 to the 64 less 1. The next one has the number after it.
    pub fn calls(&self) -> u64
        ensures { result ≡ (mem_plan self.now).made }
    {
        self.trouble.made()
    }
}
