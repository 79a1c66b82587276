//! What datagrams mean, to all programs that the server has (docs/FORMATS.md, "Meaning of a datagram").
#![tactic(auto)]

mod datagram;

pub use datagram::{Datagram, read_datagram};

#[cfg(test)]
mod tests;
