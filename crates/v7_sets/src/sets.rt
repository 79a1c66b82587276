// Blocks and i-numbers that are free.

ghost use Rattle.std.specs.Prelude.{◌≡◌, false, IfOk, replicate};

use index_sets::FreeSet;
use stable::NoMemory;
use std::alloc::Global;

/// What is free on a volume. It takes a bit of memory for each block and for each i-number, all when it is made.
#[derive(Drop)]
pub struct Sets {
    /// The data blocks that no file needs.
    pub blocks: FreeSet,
    /// The i-numbers that a new file may have.
    pub inodes: FreeSet,
}

impl Sets {
    /// The sets for blocks below one number and i-numbers below another, of which nothing is free.
    pub fn new(alloc: Global, blocks: u32, inodes: u32) -> Result<Sets, NoMemory>
        ensures blocks { IfOk result (λ sets. sets.blocks ≡ replicate blocks false) }
        ensures inodes { IfOk result (λ sets. sets.inodes ≡ replicate inodes false) }
    {
        let blocks = FreeSet::new(alloc, blocks)?;
        let inodes = FreeSet::new(alloc, inodes)?;
        Ok(Sets { blocks, inodes })
    }
}
