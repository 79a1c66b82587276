ghost use Rattle.std.specs.Prelude.{◌≡◌, ◌≤◌, None, IfOk};

use crate::address::{address_of, socket_address_of};
use crate::count::{count, counted};
use rig::{Address, Event, Failed, Link, PACKET_BYTES, Packet};
use std::io;
use std::io::ErrorKind;
use std::net::{Ipv4Addr, Net, SocketAddr, UdpSocket};
use std::time::Duration;

// How many milliseconds a link waits for a datagram before it says that none has come.
const WAIT_MILLIS: u64 = 200;

/// A UDP socket. What it hands over and sends is not told.
#[derive(Drop)]
pub struct UdpLink {
    socket: UdpSocket,
    faults: u64,
}

impl UdpLink {
    /// A link at that port of each IPv4 address of this machine. No fault is counted yet.
    pub fn bind(net: &impl Net, port: u16) -> io::Result<UdpLink>
        ensures { IfOk result (λ link. link.faults ≡ 0) }
    {
        let socket = UdpSocket::bind(net, SocketAddr::from((Ipv4Addr::UNSPECIFIED, port)))?;
        socket.set_read_timeout(Some(Duration::from_millis(WAIT_MILLIS)))?;
        Ok(UdpLink { socket, faults: 0 })
    }

    /// Another link on the same socket, with no fault counted yet. A datagram reaches one of the two.
    pub fn share(&self) -> io::Result<UdpLink>
        ensures { IfOk result (λ link. link.faults ≡ 0) }
    {
        let socket = self.socket.try_clone()?;
        Ok(UdpLink { socket, faults: 0 })
    }

    #[cfg(test)]
    pub fn port(&self) -> io::Result<u16> {
        Ok(self.socket.local_addr()?.port())
    }

    // Sends the whole datagram.
    fn send_whole(&self, to: &Address, bytes: &[u8]) -> io::Result<()> {
        let sent = self.socket.send_to(bytes, socket_address_of(to))?;
        if sent != bytes.len() {
            return Err(io::Error::from(ErrorKind::WriteZero));
        }
        Ok(())
    }
}

impl Link for UdpLink {
    ghost left = { λ _. None };

    ghost sent = { λ _. None };

    ghost faults = { λ link. link.faults };

    fn recv(&mut self, into: &mut Packet) -> Event {
        let mut bytes = [0u8; PACKET_BYTES];
        match self.socket.recv_from(&mut bytes) {
            Ok((length, from)) => {
                into.set(&bytes[..length]);
                Event::Datagram(address_of(from))
            }
            Err(error) => match error.kind() {
                ErrorKind::WouldBlock | ErrorKind::TimedOut | ErrorKind::Interrupted => Event::Idle,
                _ => {
                    count(&mut self.faults);
                    Event::Failed
                }
            },
        }
    }

    fn send(&mut self, to: &Address, bytes: &[u8]) -> Result<(), Failed> {
        let done = self.send_whole(to, bytes);
        counted(done, &mut self.faults)
    }
}
