//! The server: a run over the volumes that its words name, from the words to the status.
#![tactic(auto)]

mod lines;
mod running;
mod telling;

pub use running::serve;
pub use telling::USAGE;
