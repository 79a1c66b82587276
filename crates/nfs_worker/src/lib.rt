//! A worker of the server: its turns, its holds of a volume, and the accounts of both.
#![tactic(auto)]

mod answering;
mod cells;
mod desk;
mod pass;
mod releasing;
mod serving;
pub mod taking;
mod tending;
mod turning;
mod working;

pub use cells::{Cells, open_cells};
pub use desk::Desk;
pub use pass::{Numbers, ServerPass};
pub use releasing::{Ready, Released, release};
pub use serving::{Served, serve_call};
pub use turning::{DropCause, Ended, Turn};
pub use working::work;
