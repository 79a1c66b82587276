//! The worked WRITE, and other calls on file 3 of the test volume.

use byteorder::{BigEndian, ByteOrder};
use rig::Address;
use std::alloc::Global;
use std::test::Fail;

pub const CLIENT: Address = Address {
    ip: [9; 16],
    port: 1023,
};

/// A datagram of user 100 and group 100 begins so; the procedure follows.
pub const CALL: [u32; 5] = [7, 0, 2, 0x186a3, 2];

/// The procedure that writes (RFC 1094 2.2).
pub const WRITE: u32 = 8;

pub const CREDENTIAL: [u32; 10] = [1, 0x18, 0, 1, 0x63000000, 0x64, 0x64, 0, 0, 0];

/// A handle of file 3 of volume 0 begins so; the generation follows, and 16 zero bytes.
pub const HANDLE: [u32; 3] = [0x56374e32, 0, 3];

/// An accepted reply begins so; a status follows.
pub const REPLY: [u32; 6] = [7, 1, 0, 0, 0, 0];

/// The attributes of file 3 of 1,024 bytes, after a WRITE at second 2000.
pub const ATTRIBUTES: [u32; 17] = [
    1, 0x81a4, 1, 0x64, 0x64, 0x400, 0x200, 0, 2, 0, 3, 0x3e8, 0, 0x7d0, 0, 0x7d0, 0,
];

/// The worked WRITE, of "XY" at byte 511 of file 3, with one word changed.
pub fn write_with(at: usize, word: u32) -> [u8; 116] {
    let mut words = [0; 29];
    words[..5].copy_from_slice(&CALL);
    words[5] = WRITE;
    words[6..16].copy_from_slice(&CREDENTIAL);
    words[16..19].copy_from_slice(&HANDLE);
    words[19] = 1;
    words[24..].copy_from_slice(&[0, 511, 0, 2, 0x58590000]);
    if at < 29 {
        words[at] = word;
    }
    let mut bytes = [0; 116];
    BigEndian::write_u32_into(&words, &mut bytes);
    bytes
}

pub fn worked_write() -> [u8; 116] {
    write_with(0, 7)
}

/// Its reply at second 2000.
pub fn worked_reply() -> [u8; 96] {
    let mut words = [0; 24];
    words[..6].copy_from_slice(&REPLY);
    words[7..].copy_from_slice(&ATTRIBUTES);
    let mut bytes = [0; 96];
    BigEndian::write_u32_into(&words, &mut bytes);
    bytes
}

/// The reply to the worked call that is a status alone.
pub fn status_reply(status: u32) -> [u8; 28] {
    let mut bytes = [0; 28];
    BigEndian::write_u32_into(&[7, 1, 0, 0, 0, 0, status], &mut bytes);
    bytes
}

/// Adds these words, high byte first.
pub fn add_words(bytes: &mut Vec<u8>, words: &[u32]) -> Result<(), Fail> {
    for word in words {
        bytes.extend_from_slice(&word.to_be_bytes())?;
    }
    Ok(())
}

/// The GETATTR (RFC 1094 2.2.2) of the file.
pub fn getattr(alloc: Global) -> Result<Vec<u8>, Fail> {
    let mut bytes = Vec::new(alloc);
    add_words(&mut bytes, &CALL)?;
    add_words(&mut bytes, &[1])?;
    add_words(&mut bytes, &CREDENTIAL)?;
    add_words(&mut bytes, &HANDLE)?;
    add_words(&mut bytes, &[1, 0, 0, 0, 0])?;
    Ok(bytes)
}
