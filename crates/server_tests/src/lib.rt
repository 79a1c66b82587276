//! Tests of the server: its words, its statuses and lines, single turns, and what is sent of each datagram.
#![tactic(auto)]

#[cfg(test)]
mod tests;
