//! A volume that is made by the tool, served to a client, and inspected.

use rig_mem::{MemEvent, MemRig};
use server_runs::asking::{
    CREATE, FILE, LOOKUP, READ, READDIR, ROOT, Row, SETATTR, STATFS, SUPERUSER, reply, request,
};
use server_runs::outside::{datagram, has_said, has_sent_all, host, rig_of, served_by};
use server_runs::worked::{WRITE, add_words};
use std::alloc::Global;
use std::test::Fail;
use volume_tool::tool;

// The rig after the tool ran on it by this line, where it ended with status 0 and said this.
fn tooled(alloc: Global, rig: MemRig, line: &str, said: &str) -> Result<MemRig, Fail> {
    let mut words = Vec::new(alloc);
    for word in line.split(' ') {
        words.push(String::from_str(alloc, word)?)?;
    }
    let mut rigs = Vec::new(alloc);
    rigs.push(rig)?;
    let mut host = host(alloc, rigs, None)?;
    if tool(alloc, &words, &mut host) != 0 || !has_said(&host, &[said]) {
        return Err("another status or line".into());
    }
    match rig_of(host) {
        Some(rig) => Ok(rig),
        None => Err("the rig didn't come back".into()),
    }
}

// Datagrams in order, and their replies.
#[derive(Drop)]
struct Talk {
    events: Vec<MemEvent>,
    replies: Vec<Vec<u8>>,
}

// A datagram and its reply, by their bytes.
fn say(talk: &mut Talk, asked: &[u8], told: Vec<u8>) -> Result<(), Fail> {
    talk.events.push(datagram(asked))?;
    talk.replies.push(told)?;
    Ok(())
}

fn bytes_of(alloc: Global, words: &[u32]) -> Result<Vec<u8>, Fail> {
    let mut bytes = Vec::new(alloc);
    add_words(&mut bytes, words)?;
    Ok(bytes)
}

// A call of another program by user 0 of the machine `c`, and its result.
fn say_words(alloc: Global, talk: &mut Talk, asked: &[u32], told: &[u32]) -> Result<(), Fail> {
    let mut call = bytes_of(alloc, &[7, 0, 2])?;
    add_words(&mut call, asked)?;
    let mut answer = bytes_of(alloc, &[7, 1, 0, 0, 0, 0])?;
    add_words(&mut answer, told)?;
    say(talk, &call, answer)
}

fn say_row(alloc: Global, talk: &mut Talk, row: Row) -> Result<(), Fail> {
    let call = request(alloc, &SUPERUSER, row)?;
    say(talk, &call, reply(alloc, row)?)
}

// The name `data`, a mode of 0644 alone, and a size of 65,000 alone.
const DATA: [u32; 2] = [4, 0x64617461];

const OF_MODE: [u32; 8] = [
    0x1a4,
    u32::MAX,
    u32::MAX,
    u32::MAX,
    u32::MAX,
    u32::MAX,
    u32::MAX,
    u32::MAX,
];

const OF_SIZE: [u32; 8] = [
    u32::MAX,
    u32::MAX,
    u32::MAX,
    65000,
    u32::MAX,
    u32::MAX,
    u32::MAX,
    u32::MAX,
];

// The file when it is made, of 65,536 bytes, and of 65,000.
const EMPTY: [u32; 17] = [
    1, 0x81a4, 1, 0, 0, 0, 0x200, 0, 0, 0, 3, 0x7d0, 0, 0x7d0, 0, 0x7d0, 0,
];

const WHOLE: [u32; 17] = [
    1, 0x81a4, 1, 0, 0, 65536, 0x200, 0, 128, 0, 3, 0x7d0, 0, 0x7d0, 0, 0x7d0, 0,
];

const SHORTER: [u32; 17] = [
    1, 0x81a4, 1, 0, 0, 65000, 0x200, 0, 127, 0, 3, 0x7d0, 0, 0x7d0, 0, 0x7d0, 0,
];

const LOOKED_UP: Row = (LOOKUP, ROOT, &[&DATA], &[&[2]]);

const MADE: Row = (CREATE, ROOT, &[&DATA, &OF_MODE], &[&[0], &FILE, &EMPTY]);

const CUT_OFF: Row = (SETATTR, FILE, &[&OF_SIZE], &[&[0], &SHORTER]);

const LISTED: Row = (
    READDIR,
    ROOT,
    &[&[0, 8192]],
    &[
        &[0, 1, 2, 1, 0x2e000000, 1, 1, 2, 2, 0x2e2e0000, 2],
        &[1, 3, 4, 0x64617461, 3, 0, 1],
    ],
);

const COUNTED: Row = (STATFS, ROOT, &[], &[&[0, 8192, 512, 2030, 1901, 1901]]);

// MNT of `/vol0`, EXPORT, DUMP and HALT, from the program on, and their results.
const MOUNT: [u32; 16] = [
    0x186a5, 1, 1, 1, 0x18, 0, 1, 0x63000000, 0, 0, 0, 0, 0, 5, 0x2f766f6c, 0x30000000,
];

const MOUNTED: [u32; 9] = [0, 0x56374e32, 0, 2, 1, 0, 0, 0, 0];

const EXPORT: [u32; 7] = [0x186a5, 1, 5, 0, 0, 0, 0];

const EXPORTED: [u32; 6] = [1, 5, 0x2f766f6c, 0x30000000, 0, 0];

const DUMP: [u32; 7] = [0x186a5, 1, 2, 0, 0, 0, 0];

const DUMPED: [u32; 7] = [1, 1, 0x63000000, 5, 0x2f766f6c, 0x30000000, 0];

const HALT: [u32; 13] = [0x20001094, 1, 6, 1, 0x18, 0, 1, 0x63000000, 0, 0, 0, 0, 0];

// Eight WRITEs of 8,192 bytes, the last first.
fn say_writes(alloc: Global, talk: &mut Talk) -> Result<(), Fail> {
    for offset in [57344, 49152, 40960, 32768, 24576, 16384, 8192, 0] {
        let mut call = request(alloc, &SUPERUSER, (WRITE, FILE, &[], &[]))?;
        add_words(&mut call, &[0, offset, 0, 8192])?;
        call.extend_from_slice(&[b'a'; 8192])?;
        let told = reply(alloc, (WRITE, FILE, &[], &[&[0], &WHOLE]))?;
        say(talk, &call, told)?;
    }
    Ok(())
}

// A READ of 8,192 bytes at 57,344, of which there are 7,656.
fn say_read(alloc: Global, talk: &mut Talk) -> Result<(), Fail> {
    let call = request(alloc, &SUPERUSER, (READ, FILE, &[&[57344, 8192, 0]], &[]))?;
    let mut told = reply(alloc, (READ, FILE, &[], &[&[0], &SHORTER, &[7656]]))?;
    told.extend_from_slice(&[b'a'; 7656])?;
    say(talk, &call, told)
}

fn session(alloc: Global) -> Result<Talk, Fail> {
    let mut talk = Talk {
        events: Vec::new(alloc),
        replies: Vec::new(alloc),
    };
    say_words(alloc, &mut talk, &MOUNT, &MOUNTED)?;
    say_row(alloc, &mut talk, LOOKED_UP)?;
    say_row(alloc, &mut talk, MADE)?;
    say_writes(alloc, &mut talk)?;
    say_row(alloc, &mut talk, CUT_OFF)?;
    say_read(alloc, &mut talk)?;
    say_row(alloc, &mut talk, LISTED)?;
    say_row(alloc, &mut talk, COUNTED)?;
    say_words(alloc, &mut talk, &EXPORT, &EXPORTED)?;
    say_words(alloc, &mut talk, &DUMP, &DUMPED)?;
    say_words(alloc, &mut talk, &HALT, &[0, 0])?;
    Ok(talk)
}

#[test]
fn a_new_volume_is_mounted_written_read_and_stopped(rt: HostRuntime) -> Result<(), Fail> {
    let alloc = rt.alloc();
    let rig = MemRig::new(alloc, 2048, 64)?;
    let rig = tooled(
        alloc,
        rig,
        "mkfs d:b 2048 128 64 VOLA00 1000",
        "made 2048 sectors 128 inodes 2029 free",
    )?;
    let talk = session(alloc)?;
    let (status, host) = served_by(alloc, rig, &["d:b"], talk.events)?;
    assert_eq!(rt; status, 0);
    assert!(rt; has_sent_all(&host, &talk.replies));
    assert!(rt;
        has_said(
            &host,
            &[
                "volume 0 VOLA00 up recovered 0",
                "volume 0 down dirty 0",
                "received 18 answered 18 dropped 0"
            ]
        )
    );
    let Some(rig) = rig_of(host) else {
        panic!(rt; "the rig didn't come back");
    };
    let clean = "clean files 1 directories 1 links 0 used 129 free 1901";
    let rig = tooled(alloc, rig, "check d:b", clean)?;
    let _rig = tooled(alloc, rig, "recover d:b", "recovered 0 repaired 0")?;
    Ok(())
}
