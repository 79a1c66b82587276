//! What is known of the entries of a board that stands in front of a disk, and the two calls that change them: a sector is
//! kept on the board, and an entry is dropped.
#![tactic(auto)]

mod cache;
mod clear;
mod fill;
mod made;
mod order;
mod place;
mod slot;
mod spare;
mod word;

pub use cache::{Cache, Keep};
