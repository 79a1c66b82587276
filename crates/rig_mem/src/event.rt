use rig::{Address, Packet};

/// What a link in memory hands over.
#[derive(Drop)]
pub enum MemEvent {
    Datagram { from: Address, packet: Packet },
    Idle,
    Closed,
    Failed,
}
