// A queue of numbers below a size that any of them can leave.

ghost use Rattle.std.specs.Prelude.{◌≡◌, ◌==◌, ◌<◌, ◌≤◌, ◌++◌, ◌∷◌, [], false, IfOk, IfSome, length};
ghost use Rattle.index_sets.specs.Queue.{Queue, is_listed, without, first_of};

use crate::row::Row;
use stable::NoMemory;
use std::alloc::Global;
use std::marker::Model;

/// A queue of different numbers below a size, as of the entries that became dirty, the oldest first. A number is added at the
/// end and leaves from any place, both without a search; at most once in as many adds as the size, an add takes the gaps out
/// that numbers left behind. All its memory is taken when it is made: 32 bytes for each number below the size.
#[derive(Drop)]
pub struct IndexQueue {
    row: Row,
}

impl Model for IndexQueue {
    ghost use Rattle.index_sets.specs.Queue.{Queue};

    ghost Value = { Queue };

    ghost use Rattle.index_sets.specs.Row.{IsRow, listed_in};

    ghost view = { λ queue. record { listed = listed_in queue.row; size = queue.row.size } };

    ghost invariant = { λ queue. IsRow queue.row };
}

impl IndexQueue {
    /// The empty queue for numbers below a size.
    pub fn new(alloc: Global, size: u32) -> Result<IndexQueue, NoMemory>
        ensures { IfOk result (λ queue. queue ≡ record { listed = []; size = size }) }
    {
        let row = Row::new(alloc, size)?;
        Ok(IndexQueue { row })
    }

    /// The size below which its numbers are.
    pub fn size(&self) -> u32
        ensures { result ≡ self.now.size }
    {
        self.row.size()
    }

    /// How many numbers are in it, at most the size.
    pub fn len(&self) -> u32
        ensures len { result ≡ length self.now.listed }
        ensures most { result ≤ self.now.size }
    {
        self.row.count()
    }

    /// Whether no number is in it.
    pub fn is_empty(&self) -> bool
        ensures { result ≡ (length self.now.listed == 0) }
    {
        self.row.count() == 0
    }

    /// Whether a number is in it: false for one that isn't below the size.
    pub fn has(&self, number: u32) -> bool
        ensures has { result ≡ is_listed number self.now.listed }
    {
        self.row.has(number)
    }

    /// The first number, which has been in it for longest. None where it is empty.
    pub fn first(&self) -> Option<u32>
        ensures first { result ≡ first_of self.now.listed }
        ensures below { IfSome result (λ number. number < self.now.size) }
    {
        self.row.first()
    }

    /// Adds a number below the size at the end. It may not be in it: take it out first to make it the last.
    pub fn push_last(&mut self, number: u32)
        requires below { number < self.old.size }
        requires other { is_listed number self.old.listed ≡ false }
        ensures listed { self.new.listed ≡ self.old.listed ++ number ∷ [] }
        ensures size { self.new.size ≡ self.old.size }
    {
        self.row.push_last(number);
    }

    /// Takes a number out from wherever it stands, and the others keep their order. One that isn't in it changes nothing.
    pub fn remove(&mut self, number: u32)
        ensures listed { self.new.listed ≡ without number self.old.listed }
        ensures gone { is_listed number self.new.listed ≡ false }
        ensures size { self.new.size ≡ self.old.size }
    {
        self.row.remove(number);
    }
}
