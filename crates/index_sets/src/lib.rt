//! Sets of numbers below a size, as of blocks, entries and buffers, whose calls take no memory once the set is made: those
//! that are free, a bit for each, and those in a queue, the first one first.
#![tactic(auto)]

mod bits;
mod free_set;
mod index_queue;
mod row;
mod words;

pub use free_set::FreeSet;
pub use index_queue::IndexQueue;

#[cfg(test)]
mod tests;
