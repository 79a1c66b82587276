// Numbers and bytes at their places in a record, low byte first.

ghost use Rattle.std.specs.Prelude.{◌≡◌, ◌+◌, ◌*◌, ◌^◌, ◌<◌, ◌≤◌, ◌++◌, length, take, drop, All, ◌-◌};
ghost use Rattle.std.specs.List.{flat_map};
ghost use Rattle.byteorder.specs.Endian.{little_bytes};
ghost use Rattle.v7_layout.specs.Numbers.{part, field, fields, zeros, IsPutAt, IsNumberPutAt, AreNumbersPutAt};

use byteorder::{ByteOrder, LittleEndian};

/// The number of one byte at a place.
pub(crate) fn byte_at(bytes: &[u8], at: usize) -> u8
    requires { at < length bytes.now }
    ensures { result ≡ field bytes.now at 1 }
{
    bytes[at]
}

/// The number of two bytes at a place.
pub(crate) fn short_at(bytes: &[u8], at: usize) -> u16
    requires { at + 2 ≤ length bytes.now }
    ensures { result ≡ field bytes.now at 2 }
{
    LittleEndian::read_u16(&bytes[at..])
}

/// The number of three bytes at a place.
pub(crate) fn address_at(bytes: &[u8], at: usize) -> u32
    requires { at + 3 ≤ length bytes.now }
    ensures address { result ≡ field bytes.now at 3 }
    ensures fits { result < 2 ^ 24 }
{
    LittleEndian::read_u24(&bytes[at..])
}

/// Ten addresses of three bytes each, from a place on.
pub(crate) fn addresses_at(bytes: &[u8], at: usize) -> [u32; 10]
    requires { at + 30 ≤ length bytes.now }
    ensures addresses { result ≡ fields bytes.now at 3 10 }
    ensures fit { All (λ address. address < 2 ^ 24) result }
{
    let mut addresses = [0; 10];
    for k in 0..10 {
        addresses[k] = address_at(bytes, at + 3 * k);
    }
    addresses
}

/// The number of four bytes at a place.
pub(crate) fn long_at(bytes: &[u8], at: usize) -> u32
    requires { at + 4 ≤ length bytes.now }
    ensures { result ≡ field bytes.now at 4 }
{
    LittleEndian::read_u32(&bytes[at..])
}

/// Fifty numbers of four bytes each, from a place on.
pub(crate) fn blocks_at(bytes: &[u8], at: usize) -> [u32; 50]
    requires { at + 200 ≤ length bytes.now }
    ensures { result ≡ fields bytes.now at 4 50 }
{
    let mut blocks = [0; 50];
    LittleEndian::read_u32_into(&bytes[at..at + 200], &mut blocks);
    blocks
}

/// A hundred numbers of two bytes each, from a place on.
pub(crate) fn numbers_at(bytes: &[u8], at: usize) -> [u16; 100]
    requires { at + 200 ≤ length bytes.now }
    ensures { result ≡ fields bytes.now at 2 100 }
{
    let mut numbers = [0; 100];
    LittleEndian::read_u16_into(&bytes[at..at + 200], &mut numbers);
    numbers
}

/// As many bytes as they are, from a place on.
pub(crate) fn bytes_at<const N: usize>(bytes: &[u8], at: usize) -> [u8; N]
    requires { at + N ≤ length bytes.now }
    ensures { result ≡ part bytes.now at N }
{
    let mut copy = [0; N];
    copy.copy_from_slice(&bytes[at..at + N]);
    copy
}

/// Writes a number of two bytes at a place.
pub(crate) fn put_short(bytes: &mut [u8], at: usize, number: u16)
    requires { at + 2 ≤ length bytes.old }
    ensures { IsNumberPutAt at 2 number bytes.old bytes.new }
{
    LittleEndian::write_u16(&mut bytes[at..at + 2], number);
}

/// Writes an address of three bytes at a place.
pub(crate) fn put_address(bytes: &mut [u8], at: usize, address: u32)
    requires room { at + 3 ≤ length bytes.old }
    requires fits { address < 2 ^ 24 }
    ensures { IsNumberPutAt at 3 address bytes.old bytes.new }
{
    LittleEndian::write_u24(&mut bytes[at..at + 3], address);
}

/// Writes a number of four bytes at a place.
pub(crate) fn put_long(bytes: &mut [u8], at: usize, number: u32)
    requires { at + 4 ≤ length bytes.old }
    ensures { IsNumberPutAt at 4 number bytes.old bytes.new }
{
    LittleEndian::write_u32(&mut bytes[at..at + 4], number);
}

/// Writes ten addresses of three bytes each, from a place on.
pub(crate) fn put_addresses(bytes: &mut [u8], at: usize, addresses: &[u32; 10])
    requires room { at + 30 ≤ length bytes.old }
    requires fits { All (λ address. address < 2 ^ 24) addresses.now }
    ensures { AreNumbersPutAt at 3 10 addresses.now bytes.old bytes.new }
{
    for k in 0..10 {
        put_address(bytes, at + 3 * k, addresses[k]);
    }
}

/// Writes fifty numbers of four bytes each, from a place on.
pub(crate) fn put_blocks(bytes: &mut [u8], at: usize, blocks: &[u32; 50])
    requires { at + 200 ≤ length bytes.old }
    ensures { AreNumbersPutAt at 4 50 blocks.now bytes.old bytes.new }
{
    LittleEndian::write_u32_into(blocks, &mut bytes[at..at + 200]);
}

/// Writes a hundred numbers of two bytes each, from a place on.
pub(crate) fn put_numbers(bytes: &mut [u8], at: usize, numbers: &[u16; 100])
    requires { at + 200 ≤ length bytes.old }
    ensures { AreNumbersPutAt at 2 100 numbers.now bytes.old bytes.new }
{
    LittleEndian::write_u16_into(numbers, &mut bytes[at..at + 200]);
}

/// Writes bytes as they are, from a place on.
pub(crate) fn put_bytes(bytes: &mut [u8], at: usize, part: &[u8])
    requires { at + length part.now ≤ length bytes.old }
    ensures { IsPutAt at (length part.now) part.now bytes.old bytes.new }
{
    bytes[at..at + part.len()].copy_from_slice(part);
}

/// Fills the bytes from a place on with zeros.
#[tactic(auto, unfolding(crate::specs::Numbers::zeros))]
pub(crate) fn put_zeros(bytes: &mut [u8], at: usize)
    requires { at ≤ length bytes.old }
    ensures { bytes.new ≡ take at bytes.old ++ zeros (length bytes.old - at) }
{
    bytes[at..].fill(0);
}
