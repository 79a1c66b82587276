use lists::Items;
use rig::Address;

/// Bytes that were sent.
pub type SentBytes = Items<u8>;

/// A datagram that was sent.
#[derive(Drop)]
pub struct SentDatagram {
    pub to: Address,
    pub bytes: SentBytes,
}
