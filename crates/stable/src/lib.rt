//! What a store promises, whatever it stands on: its failures, its counts, what a crash leaves of it, and plans of puts.
#![tactic(auto)]

mod battery;
mod command;
mod failure;
mod plan;
mod run;
mod snapshot;
mod state;
mod steered;
mod store;
mod tended;

pub use battery::Battery;
pub use command::{Answer, Command, FlushAnswer};
pub use failure::{Failed, NoMemory};
pub use plan::Plan;
pub use run::run_plan;
pub use snapshot::Snapshot;
pub use state::{Cause, State};
pub use steered::SteeredStore;
pub use store::Stable;
pub use tended::Tended;

#[cfg(test)]
mod tests;
