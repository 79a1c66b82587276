//! What the words of a volume's board say: the sectors that its buffers hold in place of the disk's.
//!
//! Word 0 is a mark, word 1 the volume's name, and each further word an entry. A set entry names a sector and the
//! buffer with its bytes.
#![tactic(auto)]

mod board;
mod fault;
mod formatting;
mod judging;
mod reading;

pub use board::{Board, BoardEntries, BoardEntry, entry_word};
pub use fault::BoardFault;
pub use formatting::format;
pub use reading::read_board;

#[cfg(test)]
mod tests;
