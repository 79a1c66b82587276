//! How a volume is stopped, and what is left where that is cut.
use rig_mem::MemRig;
use server_runs::boards::with_board;
use server_runs::outside::{has_said, host_at, rig_of, run, served_by};
use server_runs::volumes::{is_stopped, is_volume, patched, rig, rig_with, with_fault};
use std::alloc::Global;
use std::test::Fail;
use volume_mem::{FRESH, test_volume};

const OPENED: &str = "volume 0 VOLA00 down recovered 0";

const STOPPED: &str = "volume 0 down dirty 0";

const NOTHING: &str = "received 0 answered 0 dropped 0";

// The host is asked for the second of the opening and for that of the stopping.
#[test]
fn a_clean_stop_writes_the_free_chain(rt: HostRuntime) -> Result<(), Fail> {
    let alloc = rt.alloc();
    let mut host = host_at(
        alloc,
        rig(alloc, FRESH)?,
        &[1500, 1700],
        Vec::new(alloc),
        &[2000],
    )?;
    assert_eq!(rt; run(alloc, &["d"], &mut host)?, 0);
    assert!(rt; has_said(&host, &[OPENED, STOPPED, NOTHING]));
    let Some(rig) = rig_of(host) else {
        panic!(rt; "no rig came back");
    };
    assert!(rt; is_volume(alloc, &rig, FRESH)?);
    assert!(rt; is_stopped(&rig, 1700));
    Ok(())
}

// A volume whose file 3 has a stored count of 5 links, so that its opening has something to mend; with a board of 4 buffers, or none.
fn to_mend(alloc: Global, boarded: bool) -> Result<MemRig, Fail> {
    let disk = patched(test_volume(alloc, FRESH)?, &[(2, 130, 5)]);
    if boarded {
        with_board(alloc, &disk, 4)
    } else {
        Ok(rig_with(alloc, disk))
    }
}

// How many device calls a run over it makes that takes no datagram: those of the opening and of the stopping.
fn calls_of(alloc: Global, boarded: bool) -> Result<u64, Fail> {
    let (_status, host) = served_by(alloc, to_mend(alloc, boarded)?, &["d:b"], Vec::new(alloc))?;
    match rig_of(host) {
        Some(rig) => Ok(rig.calls()),
        None => Err("no rig came back".into()),
    }
}

// After a run whose call of that number fails, or is cut, and a crash the volume is served and stopped, with its file. A run that is cut tells that
// its device failed; one with a call that fails may have got over it.
fn is_kept(
    alloc: Global,
    boarded: bool,
    number: u64,
    newer: bool,
    cuts: bool,
) -> Result<bool, Fail> {
    let rig = with_fault(to_mend(alloc, boarded)?, number, newer, cuts)?;
    let (status, host) = served_by(alloc, rig, &["d:b"], Vec::new(alloc))?;
    let Some(rig) = rig_of(host) else {
        return Ok(false);
    };
    let (then, host) = served_by(alloc, rig.crash(true, 0), &["d:b"], Vec::new(alloc))?;
    let Some(rig) = rig_of(host) else {
        return Ok(false);
    };
    let told = status == 74 || (status == 0 && !cuts);
    Ok(told && then == 0 && is_stopped(&rig, 1500) && is_volume(alloc, &rig, FRESH)?)
}

// The first call of an opening or a stopping after which the volume isn't as it has to be.
fn broken_call(alloc: Global, boarded: bool, cuts: bool) -> Result<Option<(u64, bool)>, Fail> {
    for number in 1..=calls_of(alloc, boarded)? {
        for newer in [false, true] {
            if !is_kept(alloc, boarded, number, newer, cuts)? {
                return Ok(Some((number, newer)));
            }
        }
    }
    Ok(None)
}

#[test]
fn a_cut_while_opening_or_stopping_keeps_the_files(rt: HostRuntime) -> Result<(), Fail> {
    assert_eq!(rt; broken_call(rt.alloc(), false, true)?, None);
    assert_eq!(rt; broken_call(rt.alloc(), true, true)?, None);
    Ok(())
}

#[test]
fn a_fault_while_opening_or_stopping_keeps_the_files(rt: HostRuntime) -> Result<(), Fail> {
    assert_eq!(rt; broken_call(rt.alloc(), false, false)?, None);
    assert_eq!(rt; broken_call(rt.alloc(), true, false)?, None);
    Ok(())
}

// The last device call puts the super-block.
#[test]
fn a_rig_that_fails_while_stopping_is_told(rt: HostRuntime) -> Result<(), Fail> {
    let alloc = rt.alloc();
    let mut rig = to_mend(alloc, false)?;
    rig.fail(calls_of(alloc, false)?, false)?;
    let (status, host) = served_by(alloc, rig, &["d"], Vec::new(alloc))?;
    assert_eq!(rt; status, 74);
    assert!(rt;
        has_said(
            &host,
            &[OPENED, STOPPED, NOTHING, "device failed on volume 0"]
        )
    );
    let Some(rig) = rig_of(host) else {
        panic!(rt; "no rig came back");
    };
    assert!(rt; is_volume(alloc, &rig, FRESH)?);
    assert!(rt; !is_stopped(&rig, 1500));
    Ok(())
}
