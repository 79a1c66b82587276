// Marks at numbers.

ghost use Rattle.std.specs.Prelude.{◌≡◌, true, false, IfOk, replicate, set, length};
ghost use Rattle.v7_damage.specs.Marks.{mark_at};

use index_sets::FreeSet;
use stable::NoMemory;
use std::alloc::Global;
use std::marker::Model;

/// Some of the numbers below a size, as of blocks or inodes, a bit for each number below the size.
#[derive(Drop)]
pub struct Marks {
    set: FreeSet,
}

impl Model for Marks {
    ghost use Rattle.std.specs.Prelude.{Bool, List};

    ghost Value = { List Bool };

    ghost view = { λ m. m.set };
}

impl Marks {
    /// No number is marked.
    pub fn new(alloc: Global, size: u32) -> Result<Marks, NoMemory>
        ensures { IfOk result (λ marks. marks ≡ replicate size false) }
    {
        let set = FreeSet::new(alloc, size)?;
        Ok(Marks { set })
    }

    /// The size below which the numbers are.
    pub fn size(&self) -> u32
        ensures { result ≡ length self.now }
    {
        self.set.size()
    }

    /// Whether a number is marked: false for one that isn't below the size.
    pub fn has(&self, number: u32) -> bool
        ensures { result ≡ mark_at self.now number }
    {
        self.set.has(number)
    }

    /// Marks a number. One that isn't below the size changes nothing.
    pub fn mark(&mut self, number: u32)
        ensures { self.new ≡ set self.old number true }
    {
        self.set.give(number);
    }
}
