//! The words of `nfsd`: what it serves and with which options.
#![tactic(auto)]

mod command;
mod numbers;
mod options;
mod reading;
mod volumes;

pub use options::Options;
pub use reading::{Words, read_words};

#[cfg(test)]
mod tests;
