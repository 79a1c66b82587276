//! The outside of the server: disk, board and battery, links, clocks, lines, and the host that makes them.
#![tactic(auto)]

mod clock;
mod host;
mod link;
mod packet;
mod pauser;
mod rig;
mod say;
mod steered;

pub use clock::Clock;
pub use files_model::Address;
pub use host::{Host, HostFault, Post};
pub use link::{Event, Link};
pub use packet::{PACKET_BYTES, Packet};
pub use pauser::{Pauser, Point};
pub use rig::Rig;
pub use say::Say;
pub use stable::{Battery, Failed, NoMemory};
pub use steered::SteeredRig;
