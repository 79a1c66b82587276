//! The volumes of a run of the server: how they are opened and started, one after the other, and how they are stopped.
#![tactic(auto)]

mod ending;
mod lines;
mod opening;
mod starting;
mod stopping;
mod together;

pub use ending::stop_all;
pub use lines::stopped_line;
pub use opening::OpenOptions;
pub use stopping::Stopped;
pub use together::{OpenVolumes, Unopened, open_all};
