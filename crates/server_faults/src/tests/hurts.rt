//! A WRITE whose inode isn't written: the volume is hurt until the next call mends it.
use rig_mem::MemRig;
use server_runs::outside::{Host, datagram, has_sent_all, opening_calls, rig_of, served_all};
use server_runs::volumes::{is_stopped, is_volume, rig, super_of};
use server_runs::worked::{ATTRIBUTES, REPLY, add_words, getattr, status_reply, worked_write};
use std::alloc::Global;
use std::test::Fail;
use volume_mem::{FRESH, Shape, WRITTEN};

// Both sectors of data are written, and the inode isn't.
const BOTH: Shape = Shape {
    bytes: *b"XY",
    ..FRESH
};

// A rig whose write of the inode's sector fails in the worked WRITE: the seventh call after the opening.
fn rig_to_fail(alloc: Global, newer: bool) -> Result<MemRig, Fail> {
    let opening = opening_calls(alloc, rig(alloc, FRESH)?)?;
    let mut rig = rig(alloc, FRESH)?;
    rig.fail(opening.saturating_add(7), newer)?;
    Ok(rig)
}

// Serves the WRITE, and a GETATTR after it if it is asked.
fn hurt(alloc: Global, newer: bool, asks: bool) -> Result<(u8, Host), Fail> {
    let mut events = Vec::new(alloc);
    events.push(datagram(&worked_write()))?;
    if asks {
        events.push(datagram(&getattr(alloc)?))?;
    }
    served_all(alloc, rig_to_fail(alloc, newer)?, events)
}

// The reply of the GETATTR, where file 3 was changed at this second.
fn attributes(alloc: Global, changed: u32) -> Result<Vec<u8>, Fail> {
    let mut words = ATTRIBUTES;
    words[13] = changed;
    words[15] = changed;
    let mut bytes = Vec::new(alloc);
    add_words(&mut bytes, &REPLY)?;
    add_words(&mut bytes, &[0])?;
    add_words(&mut bytes, &words)?;
    Ok(bytes)
}

// A failed write leaves its sector old or new.
const ROWS: [(bool, u32, Shape); 2] = [(false, 1000, BOTH), (true, 2000, WRITTEN)];

#[test]
fn the_next_call_mends_a_hurt_volume(rt: HostRuntime) -> Result<(), Fail> {
    let alloc = rt.alloc();
    for (newer, changed, shape) in ROWS {
        let (status, host) = hurt(alloc, newer, true)?;
        assert_eq!(rt; status, 0);
        let mut replies = Vec::new(alloc);
        replies.push(Vec::from_slice(alloc, &status_reply(5))?)?;
        replies.push(attributes(alloc, changed)?)?;
        assert!(rt; has_sent_all(&host, &replies), "newer {newer}");
        let Some(rig) = rig_of(host) else {
            panic!(rt; "no rig came back");
        };
        assert!(rt; is_volume(alloc, &rig, shape)?);
        assert!(rt; is_stopped(&rig, 1500));
    }
    Ok(())
}

// The volume's own word on whether it was stopped cleanly.
fn is_open(rig: &MemRig) -> bool {
    match super_of(rig) {
        Some(super_block) => super_block.s_fmod == 1 && super_block.s_nfree == 0,
        None => false,
    }
}

#[test]
fn a_hurt_volume_is_stopped_without_its_chain(rt: HostRuntime) -> Result<(), Fail> {
    let alloc = rt.alloc();
    for (newer, _changed, shape) in ROWS {
        let (status, host) = hurt(alloc, newer, false)?;
        assert_eq!(rt; status, 0);
        let Some(rig) = rig_of(host) else {
            panic!(rt; "no rig came back");
        };
        assert!(rt; is_volume(alloc, &rig, shape)?);
        assert!(rt; is_open(&rig));
        let (status, host) = served_all(alloc, rig.crash(true, 0), Vec::new(alloc))?;
        assert_eq!(rt; status, 0);
        let Some(rig) = rig_of(host) else {
            panic!(rt; "no rig came back");
        };
        assert!(rt; is_volume(alloc, &rig, shape)?);
        assert!(rt; is_stopped(&rig, 1500));
    }
    Ok(())
}
