//! A plan: sectors with their new content, to be put one after the other.
ghost use Rattle.std.specs.Prelude.{◌≡◌, ◌<◌, ◌≤◌, [], ◌∷◌, ◌++◌, length, IfOk};
ghost use Rattle.stable.specs.Puts.{with_put, with_puts};

use crate::NoMemory;
use std::alloc::Global;
use std::marker::Model;

/// Sectors with their new content, in the order in which they are put. The room for them is reserved at first, so `add` and `clear` take no memory.
#[derive(Drop)]
pub struct Plan {
    puts: Vec<(u32, [u8; 512])>,
    room: usize,
}

impl Model for Plan {
    ghost use Rattle.std.specs.Prelude.{◌≤◌, length, vec_capacity};
    ghost use Rattle.stable.specs.Puts.{Reserved};

    ghost Value = { Reserved };

    ghost view = { λ plan. record { puts = plan.puts.items; room = plan.room } };

    ghost invariant = { λ plan. plan.room ≤ vec_capacity plan.puts };
}

impl Plan {
    /// The most sectors that a plan has room for.
    pub const MOST: usize = 420;

    /// A plan of nothing, which has room for nothing. It takes no memory.
    pub fn empty(alloc: Global) -> Plan
        ensures { result ≡ record { puts = []; room = 0 } }
    {
        Plan {
            puts: Vec::new(alloc),
            room: 0,
        }
    }

    /// A plan of nothing, with room for so many sectors.
    pub fn new(alloc: Global, room: usize) -> Result<Plan, NoMemory>
        requires { room ≤ 420 }
        ensures { IfOk result (λ plan. plan ≡ record { puts = []; room = room }) }
    {
        let puts = Vec::with_capacity(alloc, room)?;
        Ok(Plan { puts, room })
    }

    /// Puts one sector more at the end.
    pub fn add(&mut self, sector: u32, bytes: &[u8; 512])
        requires { length self.old.puts < self.old.room }
        ensures { self.new ≡ with_puts self.old (self.old.puts ++ (sector, bytes.now) ∷ []) }
    {
        match self.puts.push((sector, *bytes)) {
            Ok(()) => {}
            Err(_) => unreachable!(),
        }
    }

    /// Puts one sector more; where the last one is the same sector, it takes that one's place, so that both are one put.
    pub fn add_or_replace(&mut self, sector: u32, bytes: &[u8; 512])
        requires { length self.old.puts < self.old.room }
        ensures { self.new ≡ with_puts self.old (with_put self.old.puts (sector, bytes.now)) }
    {
        let count = self.puts.len();
        if count > 0 && self.puts[count - 1].0 == sector {
            self.puts[count - 1] = (sector, *bytes);
            return;
        }
        self.add(sector, bytes);
    }

    /// Forgets all of it, and keeps the room.
    pub fn clear(&mut self)
        ensures { self.new ≡ with_puts self.old [] }
    {
        self.puts.clear();
    }

    /// The sectors with their new content, in order.
    pub fn puts(&self) -> &[(u32, [u8; 512])]
        ensures { result.now ≡ self.now.puts }
    {
        self.puts.as_slice()
    }

    /// For how many sectors there is room.
    pub fn room(&self) -> usize
        ensures { result ≡ self.now.room }
    {
        self.room
    }
}
