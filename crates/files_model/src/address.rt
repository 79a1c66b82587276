//! Where datagrams come from and go to.

/// The address of a client: an IPv6 address, or an IPv4 address in its mapped form, and a UDP port.
#[derive(Clone, Copy, Debug, PartialEq, Eq)]
pub struct Address {
    pub ip: [u8; 16],
    pub port: u16,
}
