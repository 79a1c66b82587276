use super::*;
use byteorder::{BigEndian, ByteOrder};
use files_model::NoMemory;
use std::alloc::Global;
use std::test::Fail;

// A WRITE by user 100 and group 100 of the machine "c", as words.
const WRITE: [u32; 29] = [
    7, 0, 2, 0x186a3, 2, 8, 1, 0x18, 0, 1, 0x63000000, 0x64, 0x64, 0, 0, 0, 0x56374e32, 0, 3, 1, 0,
    0, 0, 0, 0, 0x1ff, 0, 2, 0x58590000,
];

// One word changed, the length that is left, and whether that is a call.
const CASES: [(usize, u32, usize, bool); 15] = [
    (0, 9, 116, true),
    (0, 7, 112, true),
    (0, 7, 64, true),
    (0, 7, 63, false),
    (0, 7, 0, false),
    (1, 1, 116, false),
    (2, 3, 116, false),
    (4, 3, 116, false),
    (5, 18, 116, false),
    (6, 0, 116, true),
    (7, 401, 116, false),
    (7, 23, 116, false),
    (9, 0xffffffff, 116, false),
    (13, 17, 116, false),
    (15, 401, 116, false),
];

fn read_changed(
    alloc: Global,
    at: usize,
    word: u32,
    len: usize,
) -> Result<Option<RpcCall>, NoMemory> {
    let mut words = WRITE;
    if at < 29 {
        words[at] = word;
    }
    let mut bytes = [0; 116];
    BigEndian::write_u32_into(&words, &mut bytes);
    match read_rpc(alloc, &bytes[..len.min(116)])? {
        RpcRead::Call(call) => Ok(Some(call)),
        _ => Ok(None),
    }
}

#[test]
fn calls_and_what_is_none(rt: HostRuntime) -> Result<(), Fail> {
    for (at, word, len, expected) in CASES {
        let found = read_changed(rt.alloc(), at, word, len)?;
        assert_eq!(rt;
            found.is_some(),
            expected,
            "word {at} is {word}, {len} bytes"
        );
    }
    Ok(())
}

#[test]
fn the_caller_of_a_call(rt: HostRuntime) -> Result<(), Fail> {
    let call = read_changed(rt.alloc(), 12, 65536, 116)?.ok_or("a call")?;
    assert_eq!(rt; (call.xid, call.program, call.procedure), (7, 100003, 8));
    assert_eq!(rt; (call.cred.uid, call.cred.gid), (100, 65534));
    assert!(rt; call.cred.gids.ids().is_empty());
    assert_eq!(rt; call.machine.bytes(), b"c".as_slice());
    assert_eq!(rt; call.args.bytes().len(), 52);
    Ok(())
}

#[test]
fn a_body_is_padded_but_its_length_is_not(rt: HostRuntime) -> Result<(), Fail> {
    let mut sheet = Sheet::with_room(rt.alloc(), 12)?;
    sheet.put_opaque(b"abcde");
    let reply = sheet.into_reply();
    assert_eq!(rt; reply.bytes(), b"\0\0\0\x05abcde\0\0\0".as_slice());
    assert_eq!(rt; opaque_at(b"\0\0\0\x02ab", 2), None);
    assert_eq!(rt; opaque_at(b"\0\0\0\x03abc", 2), None);
    Ok(())
}

// One word of the WRITE changed, and the words of the refusal.
const REFUSALS: [(usize, u32, &[u32]); 13] = [
    (2, 3, &[7, 1, 1, 0, 2, 2]),
    (3, 100004, &[7, 1, 0, 0, 0, 1]),
    (4, 3, &[7, 1, 0, 0, 0, 2, 2, 2]),
    (3, 100005, &[7, 1, 0, 0, 0, 2, 1, 1]),
    (3, 0x20001094, &[7, 1, 0, 0, 0, 2, 1, 1]),
    (5, 18, &[7, 1, 0, 0, 0, 3]),
    (5, 0, &[7, 1, 0, 0, 0, 0]),
    (6, 2, &[7, 1, 1, 1, 2]),
    (7, 401, &[7, 1, 1, 1, 1]),
    (7, 23, &[7, 1, 1, 1, 1]),
    (9, 256, &[7, 1, 1, 1, 1]),
    (13, 17, &[7, 1, 1, 1, 1]),
    (15, 401, &[7, 1, 1, 1, 3]),
];

fn words_are(reply: &ShortReply, words: &[u32]) -> bool {
    let mut bytes = [0; 48];
    let written = &mut bytes[..4 * words.len().min(12)];
    BigEndian::write_u32_into(&words[..words.len().min(12)], written);
    reply.bytes() == &*written
}

fn refused_by(alloc: Global, words: &[u32; 29]) -> Result<Option<ShortReply>, NoMemory> {
    let mut bytes = [0; 116];
    BigEndian::write_u32_into(words, &mut bytes);
    match read_rpc(alloc, &bytes)? {
        RpcRead::Refuse(reply) => Ok(Some(reply)),
        RpcRead::Call(_call) => Ok(None),
        RpcRead::NoReply => Ok(None),
    }
}

#[test]
fn refusals_by_their_words(rt: HostRuntime) -> Result<(), Fail> {
    for (at, word, expected) in REFUSALS {
        let mut words = WRITE;
        words[at.min(28)] = word;
        let reply = refused_by(rt.alloc(), &words)?.ok_or("not refused")?;
        assert!(rt; words_are(&reply, expected), "word {at} is {word}");
    }
    Ok(())
}

// Words without arguments: procedures by flavour 0, and the reply, if any.
const NO_FLAVOUR: [(&[u32], &[u32]); 6] = [
    (&[], &[]),
    (&[9, 0], &[]),
    (&[9, 0, 3], &[9, 1, 1, 0, 2, 2]),
    (
        &[9, 0, 2, 0x186a3, 3, 0, 0, 0, 0, 0],
        &[9, 1, 0, 0, 0, 2, 2, 2],
    ),
    (&[9, 0, 2, 0x186a3, 2, 18, 0, 0, 0, 0], &[9, 1, 0, 0, 0, 3]),
    (&[9, 0, 2, 0x186a3, 2, 0, 0, 0, 0, 0], &[9, 1, 0, 0, 0, 0]),
];

fn read_few(alloc: Global, words: &[u32]) -> Result<RpcRead, NoMemory> {
    let mut bytes = [0; 40];
    let written = &mut bytes[..4 * words.len().min(10)];
    BigEndian::write_u32_into(&words[..words.len().min(10)], written);
    read_rpc(alloc, written)
}

#[test]
fn replies_without_a_call(rt: HostRuntime) -> Result<(), Fail> {
    for (words, expected) in NO_FLAVOUR {
        let answered = match read_few(rt.alloc(), words)? {
            RpcRead::Refuse(reply) => words_are(&reply, expected),
            RpcRead::NoReply => expected.is_empty(),
            RpcRead::Call(_call) => false,
        };
        assert!(rt; answered, "{} words", words.len());
    }
    Ok(())
}

#[test]
fn flavour_0_is_nobody(rt: HostRuntime) -> Result<(), Fail> {
    let words = [9, 0, 2, 0x186a3, 2, 1, 0, 0, 0, 0];
    let RpcRead::Call(call) = read_few(rt.alloc(), &words)? else {
        return Err("no call".into());
    };
    assert_eq!(rt; (call.cred.uid, call.cred.gid), (65534, 65534));
    assert!(rt; call.cred.gids.ids().is_empty() && call.machine.bytes().is_empty());
    Ok(())
}

#[test]
fn replies_by_their_names(rt: HostRuntime) {
    assert!(rt; words_are(&void_reply(7), &[7, 1, 0, 0, 0, 0]));
    assert!(rt; words_are(&garbage_reply(7), &[7, 1, 0, 0, 0, 4]));
    assert!(rt; words_are(&too_weak_reply(7), &[7, 1, 1, 1, 5]));
}
