//! Tests of the server's calls on names.
#![tactic(auto)]

#[cfg(test)]
mod tests;
