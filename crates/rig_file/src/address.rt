ghost use Rattle.std.specs.Prelude.{◌≡◌};
ghost use Rattle.std.specs.Net.Socket.{socket_ip, socket_port};
ghost use Rattle.rig_file.specs.Addresses.{known_as};

use rig::Address;
use std::net::{IpAddr, Ipv6Addr, SocketAddr};

/// The address of a socket's peer, an IPv4 one in its mapped form.
pub fn address_of(address: SocketAddr) -> Address
    ensures ip { result.ip ≡ known_as (socket_ip address) }
    ensures port { result.port ≡ socket_port address }
{
    Address {
        ip: octets_of_ip(address.ip()),
        port: address.port(),
    }
}

/// The socket's own form of an address: an IPv4 one where it is mapped.
pub fn socket_address_of(address: &Address) -> SocketAddr
    ensures ip { known_as (socket_ip result) ≡ address.now.ip }
    ensures port { socket_port result ≡ address.now.port }
{
    SocketAddr::from((ip_of_octets(address.ip), address.port))
}

// The bytes that an address is known by.
fn octets_of_ip(ip: IpAddr) -> [u8; 16]
    ensures { result ≡ known_as ip }
{
    match ip {
        IpAddr::V4(ip) => ip.to_ipv6_mapped().octets(),
        IpAddr::V6(ip) => ip.octets(),
    }
}

// The address that is known by these bytes.
fn ip_of_octets(octets: [u8; 16]) -> IpAddr
    ensures { known_as result ≡ octets }
{
    Ipv6Addr::from(octets).to_canonical()
}
