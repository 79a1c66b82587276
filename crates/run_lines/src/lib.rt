//! What the programs share: how their words are read, the word of a volume, the lines and statuses of refusals, and how lines are said.
#![tactic(auto)]

mod lines;
mod naming;
mod numbers;
mod program;
mod refusing;
mod telling;

pub use lines::{Line, device_line, line_of, no_volume_line, push_name};
pub use naming::{Named, read_volume};
pub use numbers::read_number;
pub use program::{Unread, read_command_line, refuse_words};
pub use refusing::{
    Refusal, damaged, device_failed, host_refusal, no_memory, unit_refusal, volume_refusal,
};
pub use telling::{offer, print, refuse, tell};

#[cfg(test)]
mod tests;
