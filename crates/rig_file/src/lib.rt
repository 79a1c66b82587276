//! The outside of the server on this machine: files as disk and board, a UDP socket, the system's clock, and standard output.
//!
//! The adapters tell no contents. What is proved of them is that each failed call is counted, and that sizes stay.
#![tactic(auto)]

mod address;
mod board_file;
mod count;
mod device;
mod file_rig;
mod layout;
mod real_host;
mod sleep_pauser;
mod std_say;
mod system_clock;
#[cfg(test)]
mod tests;
mod udp_link;

pub use address::address_of;
pub use file_rig::FileRig;
pub use real_host::RealHost;
pub use sleep_pauser::SleepPauser;
pub use std_say::StdSay;
pub use system_clock::SystemClock;
pub use udp_link::UdpLink;
