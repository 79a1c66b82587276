//! Tests of the server whose devices fail or are cut, with a board and without.
#![tactic(auto)]

#[cfg(test)]
mod tests;
