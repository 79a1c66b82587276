//! The control program on the wire: its calls and their replies, both ways (docs/FORMATS.md, "Control program").
#![tactic(auto)]

mod control;
mod replies;
mod reply_reading;
mod sending;

pub use control::{Control, read_control};
pub use replies::{write_answer, write_status};
pub use reply_reading::{ControlReply, read_control_reply};
pub use sending::{ControlBytes, write_control};

#[cfg(test)]
mod tests;
