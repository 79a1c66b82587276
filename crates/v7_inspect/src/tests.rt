//! The test volume, and what is wrong with it.

mod damages;
mod needed;
mod patched;
mod trees;
