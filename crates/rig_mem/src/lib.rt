//! The outside in memory. Each object tells its contents, and its calls can be made to fail.
#![tactic(auto)]

mod asks;
mod change;
mod clock;
mod event;
mod fault;
mod flags;
mod gate_pauser;
mod gates;
mod history;
mod hold;
mod host;
mod line;
mod link;
mod mem_rig;
mod pauser;
mod say;
mod sent;
mod trouble;

pub use clock::MemClock;
pub use event::MemEvent;
pub use gate_pauser::GatePauser;
pub use gates::Gates;
pub use hold::Hold;
pub use host::MemHost;
pub use line::Line;
pub use link::MemLink;
pub use mem_rig::MemRig;
pub use pauser::StillPauser;
pub use say::MemSay;
pub use sent::{SentBytes, SentDatagram};

#[cfg(test)]
mod tests;
