//! Datagrams of all programs, as docs/FORMATS.md has them, and what is sent of each.
use nfs_worker::{ServerPass, Turn};
use rig_mem::{MemEvent, MemRig};
use server_runs::boards::small;
use server_runs::outside::{
    Host, cells, datagram, has_said, has_sent_all, host_at, post, run, served_by,
};
use server_runs::turns::is_next;
use server_runs::volumes::rig;
use server_runs::worked::{add_words, worked_reply, worked_write};
use std::alloc::Global;
use std::test::Fail;
use volume_mem::FRESH;

/// The words of a datagram, and those of its reply; none where nothing is sent.
pub type Row = (&'static [u32], &'static [u32]);

/// These words as bytes.
pub fn bytes_of(alloc: Global, words: &[u32]) -> Result<Vec<u8>, Fail> {
    let mut bytes = Vec::new(alloc);
    add_words(&mut bytes, words)?;
    Ok(bytes)
}

// The host and the status after a run over these datagrams; whether each had its reply or none.
fn talked(alloc: Global, rows: &[Row]) -> Result<(u8, Host, bool), Fail> {
    let mut events = Vec::new(alloc);
    let mut replies = Vec::new(alloc);
    for (asked, reply) in rows {
        events.push(datagram(&bytes_of(alloc, asked)?))?;
        if !reply.is_empty() {
            replies.push(bytes_of(alloc, reply)?)?;
        }
    }
    let (status, host) = served_by(alloc, rig(alloc, FRESH)?, &["d"], events)?;
    let whole = has_sent_all(&host, &replies);
    Ok((status, host, whole))
}

const OPENED: &str = "volume 0 VOLA00 down recovered 0";

const STOPPED: &str = "volume 0 down dirty 0";

// The last two are the worked WRITE without its last word, and a SETATTR without arguments.
const REFUSALS: [Row; 12] = [
    (&[], &[]),
    (&[9, 1, 2], &[]),
    (&[9, 0, 3, 5], &[9, 1, 1, 0, 2, 2]),
    (&[9, 0, 2, 100004, 2, 0, 0, 0, 0, 0], &[9, 1, 0, 0, 0, 1]),
    (
        &[9, 0, 2, 0x186a3, 3, 0, 0, 0, 0, 0],
        &[9, 1, 0, 0, 0, 2, 2, 2],
    ),
    (&[9, 0, 2, 0x186a3, 2, 18, 0, 0, 0, 0], &[9, 1, 0, 0, 0, 3]),
    (&[9, 0, 2, 0x186a3, 2, 0, 0, 0, 0, 0], &[9, 1, 0, 0, 0, 0]),
    (&[9, 0, 2, 0x186a3, 2, 0, 2, 0, 0, 0], &[9, 1, 0, 0, 0, 0]),
    (&[9, 0, 2, 0x186a3, 2, 1, 2, 0, 0, 0], &[9, 1, 1, 1, 2]),
    (&[9, 0, 2, 0x186a3, 2, 3, 0, 0, 0, 0], &[9, 1, 0, 0, 0, 0]),
    (
        &[
            7, 0, 2, 0x186a3, 2, 8, 1, 0x18, 0, 1, 0x63000000, 0x64, 0x64, 0, 0, 0, 0x56374e32, 0,
            3, 1, 0, 0, 0, 0, 0, 0x1ff, 0, 2,
        ],
        &[7, 1, 0, 0, 0, 4],
    ),
    (&[9, 0, 2, 0x186a3, 2, 2, 0, 0, 0, 0], &[9, 1, 0, 0, 0, 4]),
];

#[test]
fn what_is_refused_has_its_reply(rt: HostRuntime) -> Result<(), Fail> {
    let (status, host, whole) = talked(rt.alloc(), &REFUSALS)?;
    assert_eq!(rt; status, 0);
    assert!(rt; whole);
    assert!(rt;
        has_said(
            &host,
            &[OPENED, STOPPED, "received 12 answered 10 dropped 2"]
        )
    );
    Ok(())
}

// By user 100 of the machine "c": MNT of `/vol0` twice and of `/vol1`, DUMP, EXPORT, UMNT, DUMP.
const SESSION: [Row; 7] = [
    (
        &[
            7, 0, 2, 0x186a5, 1, 1, 1, 0x18, 0, 1, 0x63000000, 0x64, 0x64, 0, 0, 0, 5, 0x2f766f6c,
            0x30000000,
        ],
        &[7, 1, 0, 0, 0, 0, 0, 0x56374e32, 0, 2, 1, 0, 0, 0, 0],
    ),
    (
        &[
            8, 0, 2, 0x186a5, 1, 1, 1, 0x18, 0, 1, 0x63000000, 0x64, 0x64, 0, 0, 0, 5, 0x2f766f6c,
            0x30000000,
        ],
        &[8, 1, 0, 0, 0, 0, 0, 0x56374e32, 0, 2, 1, 0, 0, 0, 0],
    ),
    (
        &[
            7, 0, 2, 0x186a5, 1, 1, 1, 0x18, 0, 1, 0x63000000, 0x64, 0x64, 0, 0, 0, 5, 0x2f766f6c,
            0x31000000,
        ],
        &[7, 1, 0, 0, 0, 0, 2],
    ),
    (
        &[7, 0, 2, 0x186a5, 1, 2, 0, 0, 0, 0],
        &[
            7, 1, 0, 0, 0, 0, 1, 1, 0x63000000, 5, 0x2f766f6c, 0x30000000, 0,
        ],
    ),
    (
        &[7, 0, 2, 0x186a5, 1, 5, 0, 0, 0, 0],
        &[7, 1, 0, 0, 0, 0, 1, 5, 0x2f766f6c, 0x30000000, 0, 0],
    ),
    (
        &[
            7, 0, 2, 0x186a5, 1, 3, 1, 0x18, 0, 1, 0x63000000, 0x64, 0x64, 0, 0, 0, 5, 0x2f766f6c,
            0x30000000,
        ],
        &[7, 1, 0, 0, 0, 0],
    ),
    (
        &[7, 0, 2, 0x186a5, 1, 2, 0, 0, 0, 0],
        &[7, 1, 0, 0, 0, 0, 0],
    ),
];

#[test]
fn a_machine_mounts_and_unmounts(rt: HostRuntime) -> Result<(), Fail> {
    let (status, _, whole) = talked(rt.alloc(), &SESSION)?;
    assert_eq!(rt; status, 0);
    assert!(rt; whole);
    Ok(())
}

// HALT by user 0 of a machine without a name.
const HALT: &[u32] = &[9, 0, 2, 0x20001094, 1, 6, 1, 20, 0, 0, 0, 0, 0, 0, 0];

// Controls: STATUS and UP of a volume that isn't open, UP by user 100 and by nobody, without a volume, without a board, HALT, and what comes after it.
const CONTROLS: [Row; 8] = [
    (
        &[9, 0, 2, 0x20001094, 1, 5, 0, 0, 0, 0, 3],
        &[9, 1, 0, 0, 0, 0, 4, 0],
    ),
    (
        &[9, 0, 2, 0x20001094, 1, 1, 1, 20, 0, 0, 0, 0, 0, 0, 0, 1],
        &[9, 1, 0, 0, 0, 0, 4, 0],
    ),
    (
        &[9, 0, 2, 0x20001094, 1, 1, 1, 20, 0, 0, 100, 0, 0, 0, 0, 0],
        &[9, 1, 1, 1, 5],
    ),
    (&[9, 0, 2, 0x20001094, 1, 6, 0, 0, 0, 0], &[9, 1, 1, 1, 5]),
    (
        &[9, 0, 2, 0x20001094, 1, 1, 1, 20, 0, 0, 0, 0, 0, 0, 0],
        &[9, 1, 0, 0, 0, 4],
    ),
    (
        &[9, 0, 2, 0x20001094, 1, 1, 1, 20, 0, 0, 0, 0, 0, 0, 0, 0],
        &[9, 1, 0, 0, 0, 0, 2, 0],
    ),
    (HALT, &[9, 1, 0, 0, 0, 0, 0, 0]),
    (&[9, 0, 2, 0x186a3, 2, 0, 0, 0, 0, 0], &[]),
];

#[test]
fn user_0_halts_the_server(rt: HostRuntime) -> Result<(), Fail> {
    let (status, host, whole) = talked(rt.alloc(), &CONTROLS)?;
    assert_eq!(rt; status, 0);
    assert!(rt; whole);
    assert!(rt; has_said(&host, &[OPENED, STOPPED, "received 7 answered 7 dropped 0"]));
    Ok(())
}

#[test]
fn a_turn_that_takes_a_halt_is_halted(rt: HostRuntime) -> Result<(), Fail> {
    let alloc = rt.alloc();
    let mut events = Vec::new(alloc);
    events.push(datagram(&bytes_of(alloc, HALT)?))?;
    let mut post = post(alloc, events)?;
    let mut pass = ServerPass::new(0, 0);
    let Some(mut cells) = cells(alloc, rig(alloc, FRESH)?) else {
        panic!(rt; "the volume wasn't opened");
    };
    assert!(rt; is_next(&mut cells, &mut post, &mut pass, Turn::Halted));
    assert_eq!(rt; (pass.numbers.received, pass.numbers.answered), (1, 1));
    Ok(())
}

// ---- a board whose battery goes low, or that is commanded Down

// STATUS and DOWN of volume 0 by user 0.
const STATUS: &[u32] = &[9, 0, 2, 0x20001094, 1, 5, 1, 20, 0, 0, 0, 0, 0, 0, 0, 0];

const DOWN: &[u32] = &[9, 0, 2, 0x20001094, 1, 2, 1, 20, 0, 0, 0, 0, 0, 0, 0, 0];

// The worked WRITE at second 2000, and at the next one this datagram, after so many events without one. What is sent is its reply, and this one.
fn after_a_write(
    alloc: Global,
    rig: MemRig,
    idle: u32,
    asked: &[u32],
    reply: &[u32],
) -> Result<(u8, Host, bool), Fail> {
    let mut events = Vec::new(alloc);
    events.push(datagram(&worked_write()))?;
    for _ in 0..idle {
        events.push(MemEvent::Idle)?;
    }
    events.push(datagram(&bytes_of(alloc, asked)?))?;
    let mut host = host_at(alloc, rig, &[2000], events, &[2000, 2001])?;
    let status = run(alloc, &["d:b"], &mut host)?;
    let mut replies = Vec::new(alloc);
    replies.push(Vec::from_slice(alloc, &worked_reply())?)?;
    replies.push(bytes_of(alloc, reply)?)?;
    let whole = has_sent_all(&host, &replies);
    Ok((status, host, whole))
}

const STARTED: &str = "volume 0 VOLA00 up recovered 0";

const TWO: &str = "received 2 answered 2 dropped 0";

#[test]
fn a_status_shows_what_the_idle_turns_flushed(rt: HostRuntime) -> Result<(), Fail> {
    let alloc = rt.alloc();
    let mut rig = small(alloc)?;
    rig.low_from(2);
    let (status, host, whole) = after_a_write(
        alloc,
        rig,
        3,
        STATUS,
        &[9, 1, 0, 0, 0, 0, 0, 4, 0, 0, 0, 3],
    )?;
    assert_eq!(rt; status, 0);
    assert!(rt; whole);
    assert!(rt; has_said(&host, &[STARTED, STOPPED, TWO]));
    Ok(())
}

#[test]
fn a_status_shows_what_is_dirty(rt: HostRuntime) -> Result<(), Fail> {
    let alloc = rt.alloc();
    let (status, _, whole) = after_a_write(
        alloc,
        small(alloc)?,
        0,
        STATUS,
        &[9, 1, 0, 0, 0, 0, 0, 1, 3, 1, 0, 3],
    )?;
    assert_eq!(rt; status, 0);
    assert!(rt; whole);
    Ok(())
}

#[test]
fn down_flushes_what_is_dirty(rt: HostRuntime) -> Result<(), Fail> {
    let alloc = rt.alloc();
    let mut rig = small(alloc)?;
    rig.low_from(2);
    let (status, host, whole) = after_a_write(alloc, rig, 0, DOWN, &[9, 1, 0, 0, 0, 0, 0, 0])?;
    assert_eq!(rt; status, 0);
    assert!(rt; whole);
    assert!(rt; has_said(&host, &[STARTED, STOPPED, TWO]));
    Ok(())
}

#[test]
fn down_tells_what_it_left(rt: HostRuntime) -> Result<(), Fail> {
    let alloc = rt.alloc();
    let mut rig = small(alloc)?;
    rig.break_sector(2)?;
    let (status, _, whole) = after_a_write(alloc, rig, 0, DOWN, &[9, 1, 0, 0, 0, 0, 1, 1])?;
    assert_eq!(rt; status, 74);
    assert!(rt; whole);
    Ok(())
}
