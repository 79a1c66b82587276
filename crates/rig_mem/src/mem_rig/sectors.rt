// Whole sectors, in lists.
ghost use Rattle.std.specs.Prelude.{◌≡◌, ◌<◌, ℕ, length, get_or, [], replicate, IfOk};
ghost use Rattle.rig.specs.Devices.{IsSector};

use rig::NoMemory;
use std::alloc::Global;

// Each sector of a disk is whole, as its type says: the loop only shows it to the check.
pub fn are_whole(disk: &[[u8; 512]])
    ensures { (i : ℕ) → i < length disk.now → IsSector (get_or disk.now i []) }
{
    for sector in disk {
        is_whole(*sector);
    }
}

fn is_whole(sector: [u8; 512])
    ensures { IsSector sector }
{}

pub fn filled(byte: u8) -> [u8; 512]
    ensures is { result ≡ replicate 512 byte }
    ensures sector { IsSector result }
{
    [byte; 512]
}

pub fn zero_sectors(alloc: Global, count: u32) -> Result<Vec<[u8; 512]>, NoMemory>
    ensures { IfOk result (λ v. v.items ≡ replicate count (replicate 512 0)) }
{
    let mut sectors = Vec::new(alloc);
    let zeros = filled(0);
    for i in 0..count {
        sectors.push(zeros)?;
    }
    Ok(sectors)
}
