//! MOUNT: the paths of the open volumes, and the list of what machines have mounted (RFC 1094 appendix A; docs/FORMATS.md, "MOUNT").
#![tactic(auto)]

mod answer;
mod list;
mod paths;
mod replies;

pub use list::{Mounts, Row};

#[cfg(test)]
mod tests;
