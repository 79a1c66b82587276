use super::*;
use byteorder::{BigEndian, ByteOrder};
use files_model::{Attr, Call, Data, Entries, Entry, FileId, Kind, Name, Reply, Text};
use std::test::Fail;

// The reply to a WRITE of "XY" at byte 511 of file 3 of volume 0, as words.
const REPLY: [u32; 24] = [
    7, 1, 0, 0, 0, 0, 0, 1, 0x81a4, 1, 0x64, 0x64, 0x400, 0x200, 0, 2, 0, 3, 0x3e8, 0, 0x7d0, 0,
    0x7d0, 0,
];

const ATTR: Attr = Attr {
    kind: Kind::Regular,
    mode: 0o644,
    nlink: 1,
    uid: 100,
    gid: 100,
    size: 1024,
    fileid: 3,
    atime: 1000,
    mtime: 2000,
    ctime: 2000,
};

#[test]
fn data_are_answered(rt: HostRuntime) -> Result<(), Fail> {
    let reply = Reply::Data {
        attr: ATTR,
        bytes: Data::copy(rt.alloc(), b"aXYa")?,
    };
    let mut expected = [0; 104];
    let words = [
        7, 1, 0, 0, 0, 0, 0, 1, 0x81a4, 1, 0x64, 0x64, 0x400, 0x200, 0, 2, 0, 3, 0x3e8, 0, 0x7d0,
        0, 0x7d0, 0, 4, 0x61585961,
    ];
    BigEndian::write_u32_into(&words, &mut expected);
    let written = write_reply(Room::new(rt.alloc(), 8292)?, 7, &reply, 0);
    assert_eq!(rt; written.bytes(), expected.as_slice());
    Ok(())
}

#[test]
fn a_write_is_answered(rt: HostRuntime) -> Result<(), Fail> {
    let mut expected = [0; 96];
    BigEndian::write_u32_into(&REPLY, &mut expected);
    let reply = write_reply(Room::new(rt.alloc(), 8292)?, 7, &Reply::Attr(ATTR), 0);
    assert_eq!(rt; reply.bytes(), expected.as_slice());
    let mut stale = [0; 28];
    BigEndian::write_u32_into(&[9, 1, 0, 0, 0, 0, 70], &mut stale);
    let reply = stale_reply(9);
    assert_eq!(rt; reply.bytes(), stale.as_slice());
    Ok(())
}

#[test]
fn an_entry_is_answered(rt: HostRuntime) -> Result<(), Fail> {
    let mut list = Vec::new(rt.alloc());
    list.push(Entry {
        fileid: 3,
        name: Name::copy(b"a"),
        cookie: 1,
    })?;
    let reply = Reply::Entries {
        list: Entries::new(list),
        end: true,
    };
    let mut expected = [0; 56];
    let words = [7, 1, 0, 0, 0, 0, 0, 1, 3, 1, 0x61000000, 1, 0, 1];
    BigEndian::write_u32_into(&words, &mut expected);
    let written = write_reply(Room::new(rt.alloc(), 8292)?, 7, &reply, 0);
    assert_eq!(rt; written.bytes(), expected.as_slice());
    Ok(())
}

#[test]
fn a_text_is_answered(rt: HostRuntime) -> Result<(), Fail> {
    let reply = Reply::Text(Text::copy(rt.alloc(), b"abcde")?);
    let mut expected = [0; 40];
    let words = [7, 1, 0, 0, 0, 0, 0, 5, 0x61626364, 0x65000000];
    BigEndian::write_u32_into(&words, &mut expected);
    let written = write_reply(Room::new(rt.alloc(), 8292)?, 7, &reply, 0);
    assert_eq!(rt; written.bytes(), expected.as_slice());
    Ok(())
}

#[test]
fn a_handle_has_its_mark_and_its_numbers(rt: HostRuntime) {
    let file = FileId {
        ino: 3,
        generation: 1,
    };
    let mut expected = [0; 32];
    BigEndian::write_u32_into(&[0x56374e32, 2, 3, 1, 0, 0, 0, 0], &mut expected);
    assert_eq!(rt; handle_bytes(2, file), expected);
    assert_eq!(rt; longest(&Call::Getattr { file }), 8292);
}

#[test]
fn room_for_a_call_is_found(rt: HostRuntime) -> Result<(), Fail> {
    let file = FileId {
        ino: 3,
        generation: 1,
    };
    let room = Room::for_call(rt.alloc(), &Call::Getattr { file })?;
    assert!(rt; room.into_sheet().into_reply().bytes().is_empty());
    Ok(())
}
