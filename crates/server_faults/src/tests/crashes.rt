//! Each device call of the worked WRITE fails, or is cut; then the rig crashes and is served again.
use rig_mem::MemRig;
use server_runs::outside::{has_said, has_sent, opening_calls, rig_of, served};
use server_runs::volumes::{is_stopped, is_volume, rig};
use server_runs::worked::{status_reply, worked_reply, worked_write};
use std::alloc::Global;
use std::test::Fail;
use volume_mem::{FRESH, Shape, WRITTEN};

// The first sector of the WRITE is there.
const FIRST: Shape = Shape {
    bytes: *b"Xa",
    ..FRESH
};

// Both are, and the inode isn't.
const BOTH: Shape = Shape {
    bytes: *b"XY",
    ..FRESH
};

// The number of a device call after the opening, whether it leaves the newer state, and what is on the disk then. Calls 1 to 4
// read the super-block, the inode and both sectors of data; calls 5 to 7 write sectors 5, 6 and 2.
const ROWS: [(u64, bool, Shape); 14] = [
    (1, false, FRESH),
    (1, true, FRESH),
    (2, false, FRESH),
    (2, true, FRESH),
    (3, false, FRESH),
    (3, true, FRESH),
    (4, false, FRESH),
    (4, true, FRESH),
    (5, false, FRESH),
    (5, true, FIRST),
    (6, false, FIRST),
    (6, true, BOTH),
    (7, false, BOTH),
    (7, true, WRITTEN),
];

// A rig that is served the worked WRITE, then crashes, and is served it again: both times it is as it has to be.
fn is_kept(alloc: Global, rig: MemRig, opens: bool, shape: Shape) -> Result<bool, Fail> {
    let (status, host) = served(alloc, rig, &worked_write())?;
    let told = if opens {
        status == 0 && has_sent(&host, &status_reply(5))
    } else {
        status == 74 && has_said(&host, &["device failed on volume 0"])
    };
    let Some(rig) = rig_of(host) else {
        return Ok(false);
    };
    let rig = rig.crash(true, 0);
    if !told || !is_volume(alloc, &rig, shape)? {
        return Ok(false);
    }
    let (status, host) = served(alloc, rig, &worked_write())?;
    let told = status == 0 && has_sent(&host, &worked_reply());
    let Some(rig) = rig_of(host) else {
        return Ok(false);
    };
    Ok(told && is_stopped(&rig, 1500) && is_volume(alloc, &rig, WRITTEN)?)
}

// A rig whose call of that number fails, or is cut where `cuts` is true.
fn rig_to_fail(alloc: Global, number: u64, newer: bool, cuts: bool) -> Result<MemRig, Fail> {
    let mut rig = rig(alloc, FRESH)?;
    if cuts {
        rig.stop_at(number, newer);
        return Ok(rig);
    }
    rig.fail(number, newer)?;
    Ok(rig)
}

// The first call of the opening after which a rig isn't as it has to be.
fn broken_opening(alloc: Global, opening: u64, cuts: bool) -> Result<Option<(u64, bool)>, Fail> {
    for number in 1..=opening {
        for newer in [false, true] {
            let rig = rig_to_fail(alloc, number, newer, cuts)?;
            if !is_kept(alloc, rig, false, FRESH)? {
                return Ok(Some((number, newer)));
            }
        }
    }
    Ok(None)
}

// The first call of the WRITE after which a rig isn't as it has to be.
fn broken_write(alloc: Global, opening: u64, cuts: bool) -> Result<Option<(u64, bool)>, Fail> {
    for (number, newer, shape) in ROWS {
        let rig = rig_to_fail(alloc, opening.saturating_add(number), newer, cuts)?;
        if !is_kept(alloc, rig, true, shape)? {
            return Ok(Some((number, newer)));
        }
    }
    Ok(None)
}

#[test]
fn a_failed_call_is_answered_io(rt: HostRuntime) -> Result<(), Fail> {
    let opening = opening_calls(rt.alloc(), rig(rt.alloc(), FRESH)?)?;
    assert_eq!(rt; broken_opening(rt.alloc(), opening, false)?, None);
    assert_eq!(rt; broken_write(rt.alloc(), opening, false)?, None);
    Ok(())
}

#[test]
fn a_cut_leaves_each_sector_old_or_new(rt: HostRuntime) -> Result<(), Fail> {
    let opening = opening_calls(rt.alloc(), rig(rt.alloc(), FRESH)?)?;
    assert_eq!(rt; broken_opening(rt.alloc(), opening, true)?, None);
    assert_eq!(rt; broken_write(rt.alloc(), opening, true)?, None);
    Ok(())
}

#[test]
fn what_was_answered_is_kept(rt: HostRuntime) -> Result<(), Fail> {
    let alloc = rt.alloc();
    let opening = opening_calls(alloc, rig(alloc, FRESH)?)?;
    let mut rig = rig(alloc, FRESH)?;
    rig.stop_at(opening.saturating_add(8), false);
    let (status, host) = served(alloc, rig, &worked_write())?;
    assert_eq!(rt; status, 74);
    assert!(rt; has_sent(&host, &worked_reply()));
    let Some(rig) = rig_of(host) else {
        panic!(rt; "no rig came back");
    };
    assert!(rt; is_volume(alloc, &rig.crash(true, 0), WRITTEN)?);
    Ok(())
}
