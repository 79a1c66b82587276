//! Tests of the server's calls on trees: directories and links that are made, moved and taken away.
#![tactic(auto)]

#[cfg(test)]
mod tests;
