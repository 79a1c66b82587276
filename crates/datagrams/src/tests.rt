//! Datagrams, as docs/FORMATS.md has them.

use super::*;
use byteorder::{BigEndian, ByteOrder};
use files_model::{Call, FileId, NoMemory};
use std::alloc::Global;
use std::test::Fail;

// A WRITE of "XY" at byte 511 of file 3 of volume 0, by user 100 and group 100 of the machine "c", as words.
const WRITE: [u32; 29] = [
    7, 0, 2, 0x186a3, 2, 8, 1, 0x18, 0, 1, 0x63000000, 0x64, 0x64, 0, 0, 0, 0x56374e32, 0, 3, 1, 0,
    0, 0, 0, 0, 0x1ff, 0, 2, 0x58590000,
];

// What a datagram means: nothing, a call, or what is answered by these words.
#[derive(Clone, Copy)]
enum Found {
    Nothing,
    Call,
    Outside(&'static [u32]),
}

const GARBAGE: Found = Found::Outside(&[7, 1, 0, 0, 0, 4]);

const STALE: Found = Found::Outside(&[7, 1, 0, 0, 0, 0, 70]);

const BAD_CREDENTIAL: Found = Found::Outside(&[7, 1, 1, 1, 1]);

// One word of the WRITE changed, the length that is left, and what that means where one volume is open.
const CASES: [(usize, u32, usize, Found); 20] = [
    (0, 7, 116, Found::Call),
    (28, 0x58590101, 116, Found::Call),
    (18, 0, 116, Found::Call),
    (6, 0, 116, Found::Call),
    (0, 7, 112, GARBAGE),
    (0, 7, 63, Found::Nothing),
    (0, 7, 0, Found::Nothing),
    (1, 1, 116, Found::Nothing),
    (2, 3, 116, Found::Outside(&[7, 1, 1, 0, 2, 2])),
    (7, 401, 116, BAD_CREDENTIAL),
    (9, 0xffffffff, 116, BAD_CREDENTIAL),
    (13, 17, 116, BAD_CREDENTIAL),
    (5, 3, 116, Found::Outside(&[7, 1, 0, 0, 0, 0])),
    (27, 8193, 116, GARBAGE),
    (16, 0x56374e33, 116, STALE),
    (17, 1, 116, STALE),
    (20, 1, 116, STALE),
    (23, 1, 116, STALE),
    // an RMDIR of the empty name
    (5, 15, 116, Found::Call),
    (5, 2, 116, GARBAGE),
];

fn read_changed(alloc: Global, at: usize, word: u32, len: usize) -> Result<Datagram, NoMemory> {
    let mut words = WRITE;
    if at < 29 {
        words[at] = word;
    }
    let mut bytes = [0; 116];
    BigEndian::write_u32_into(&words, &mut bytes);
    read_datagram(alloc, &bytes[..len.min(116)], 1)
}

fn words_are(reply: &[u8], words: &[u32]) -> bool {
    let mut bytes = [0; 48];
    let written = &mut bytes[..4 * words.len().min(12)];
    BigEndian::write_u32_into(&words[..words.len().min(12)], written);
    reply == &*written
}

fn is_found(datagram: &Datagram, wanted: Found) -> bool {
    match (datagram, wanted) {
        (Datagram::NoMeaning, Found::Nothing) => true,
        (Datagram::Asks { .. }, Found::Call) => true,
        (Datagram::Outside(reply), Found::Outside(words)) => words_are(reply.bytes(), words),
        _ => false,
    }
}

#[test]
fn what_datagrams_mean(rt: HostRuntime) -> Result<(), Fail> {
    for (at, word, len, wanted) in CASES {
        let datagram = read_changed(rt.alloc(), at, word, len)?;
        assert!(rt;
            is_found(&datagram, wanted),
            "word {at} is {word}, {len} bytes"
        );
    }
    Ok(())
}

fn is_worked_write(datagram: &Datagram) -> bool {
    match datagram {
        Datagram::Asks {
            xid: 7,
            volume: 0,
            cred,
            call: Call::Write {
                file,
                offset: 511,
                bytes,
            },
        } => cred.uid == 100
            && cred.gid == 100
            && is_file(*file)
            && bytes.bytes() == b"XY".as_slice(),
        _ => false,
    }
}

// Whether it is file 3 of generation 1.
fn is_file(file: FileId) -> bool {
    file.ino == 3 && file.generation == 1
}

#[test]
fn a_write_is_read(rt: HostRuntime) -> Result<(), Fail> {
    let datagram = read_changed(rt.alloc(), 0, 7, 116)?;
    assert!(rt; is_worked_write(&datagram));
    Ok(())
}
