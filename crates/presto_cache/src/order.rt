// The order of the dirty list: the only file that knows how it is kept.
ghost use Rattle.std.specs.Prelude.{◌≡◌, ◌^◌, ◌<◌, Bool, [], ◌∷◌, ◌++◌, true, false, length, IfOk};
ghost use Rattle.index_sets.specs.Queue.{is_listed, without, first_of};
ghost use Rattle.presto_cache.specs.Order.{IsOrderOf, listed, room_of, followed};
ghost use Rattle.std.specs.List.Sorted.{IsStrictlyIncreasing};

use crate::place::{is_taken, slot_at};
use crate::slot::Slot;
use index_sets::IndexQueue;
use rig::NoMemory;
use std::alloc::Global;

/// Indices of entries, the oldest first.
#[derive(Drop)]
pub struct Order {
    indices: IndexQueue,
}

impl Order {
    /// The dirty entries by index, and room for each.
    pub fn by_index(alloc: Global, slots: &[Slot]) -> Result<Order, NoMemory>
        requires { length slots.now < 2 ^ 32 }
        ensures order { IfOk result (λ order. IsOrderOf slots.now (listed order)) }
        ensures rising { IfOk result (λ order. IsStrictlyIncreasing (listed order)) }
        ensures room { IfOk result (λ order. room_of order ≡ length slots.now) }
    {
        let indices = IndexQueue::new(alloc, slots.len() as u32)?;
        let mut order = Order { indices };
        for index in 0..slots.len() as u32 {
            order.follow(index, false, is_taken(&slot_at(slots, index)));
        }
        Ok(order)
    }

    /// Makes an index the youngest.
    pub fn put_last(&mut self, index: u32)
        requires { index < room_of self.old }
        ensures last { listed self.new ≡ without index (listed self.old) ++ index ∷ [] }
        ensures room { room_of self.new ≡ room_of self.old }
    {
        self.indices.remove(index);
        self.indices.push_last(index);
    }

    /// After an entry was dirty or not, and now is or isn't: one that becomes dirty is the youngest, one that becomes free leaves.
    pub fn follow(&mut self, index: u32, was: bool, is: bool)
        requires below { index < room_of self.old }
        requires other { was ≡ false → is_listed index (listed self.old) ≡ false }
        ensures listed { listed self.new ≡ followed was is index (listed self.old) }
        ensures room { room_of self.new ≡ room_of self.old }
    {
        match (was, is) {
            (false, true) => self.indices.push_last(index),
            (true, false) => self.indices.remove(index),
            _ => {}
        }
    }

    /// The oldest index.
    pub fn oldest(&self) -> Option<u32>
        ensures { result ≡ first_of (listed self.now) }
    {
        self.indices.first()
    }

    /// How many there are.
    pub fn len(&self) -> u32
        ensures { result ≡ length (listed self.now) }
    {
        self.indices.len()
    }
}
