//! Each device call of one call fails or is cut; then the rig crashes and is served again.

use crate::asking::{Row, SUPERUSER, answered, request};
use crate::outside::{cells, datagram, last_rig, opening_calls, post};
use crate::turns::is_next;
use crate::volumes::{rig_with, super_of, with_fault};
use nfs_worker::{ServerPass, Turn};
use rig_mem::MemRig;
use std::alloc::Global;
use std::test::Fail;

fn rig_before(alloc: Global, disk: &[[u8; 512]]) -> Result<MemRig, Fail> {
    Ok(rig_with(alloc, Vec::from_slice(alloc, disk)?))
}

// How many device calls the call makes on an open volume.
fn calls_of(alloc: Global, disk: &[[u8; 512]], call: Row) -> Result<u64, Fail> {
    let opening = opening_calls(alloc, rig_before(alloc, disk)?)?;
    let mut events = Vec::new(alloc);
    events.push(datagram(&request(alloc, &SUPERUSER, call)?))?;
    let mut post = post(alloc, events)?;
    let mut pass = ServerPass::new(0, 2000);
    let Some(mut cells) = cells(alloc, rig_before(alloc, disk)?) else {
        return Err("the volume isn't opened".into());
    };
    if !is_next(&mut cells, &mut post, &mut pass, Turn::Answered(1)) {
        return Err("the call isn't answered".into());
    }
    match last_rig(&mut cells) {
        Some(rig) => Ok(rig.calls().saturating_sub(opening)),
        None => Err("there is no volume".into()),
    }
}

// How many of so many puts, which are its last device calls, stand on the disk, where the device call of this number fails or is cut.
fn puts_until(puts: u64, calls: u64, number: u64, newer: bool) -> u64 {
    let reached = number.saturating_add(puts);
    if reached <= calls {
        return 0;
    }
    let whole = reached.saturating_sub(calls).saturating_sub(1);
    if newer {
        whole.saturating_add(1)
    } else {
        whole
    }
}

fn is_clean(rig: &MemRig) -> bool {
    match super_of(rig) {
        Some(super_block) => super_block.s_fmod == 0,
        None => false,
    }
}

// The rig is served the call, which is answered by IO, crashes, and is served again: it answers these rows, and ends clean.
fn is_kept(alloc: Global, rig: MemRig, call: Row, rows: &[Row]) -> Result<bool, Fail> {
    let Some(rig) = answered(alloc, rig, &SUPERUSER, &[call])? else {
        return Ok(false);
    };
    match answered(alloc, rig.crash(true, 0), &SUPERUSER, rows)? {
        Some(rig) => Ok(is_clean(&rig)),
        None => Ok(false),
    }
}

/// The first device call of user 0's call on the volume of this disk after which it isn't as it has to be, and whether that call left the newer
/// state. Each fails in turn, or is cut where `cuts` is true, and leaves the older state and the newer one. The call's row has the reply IO. The
/// volume then answers the rows that stand in `after` at the number of puts that were made, which begins at none; the call makes one put less than
/// that has places.
pub fn broken(
    alloc: Global,
    disk: &[[u8; 512]],
    call: Row,
    after: &[&'static [Row]],
    cuts: bool,
) -> Result<Option<(u64, bool)>, Fail> {
    let opening = opening_calls(alloc, rig_before(alloc, disk)?)?;
    let calls = calls_of(alloc, disk, call)?;
    let puts = (after.len() as u64).saturating_sub(1);
    if calls <= puts {
        return Err("it reads nothing".into());
    }
    for number in 1..=calls {
        for newer in [false, true] {
            let rig = rig_before(alloc, disk)?;
            let rig = with_fault(rig, opening.saturating_add(number), newer, cuts)?;
            let Some(rows) = after.get(puts_until(puts, calls, number, newer) as usize) else {
                return Err("it makes more puts".into());
            };
            if !is_kept(alloc, rig, call, rows)? {
                return Ok(Some((number, newer)));
            }
        }
    }
    Ok(None)
}
