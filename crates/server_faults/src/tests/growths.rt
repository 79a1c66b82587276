//! Each device call of a call that changes the size of its file fails, or is cut; then the rig crashes and is served again.
ghost use Rattle.v7_layout.specs.Written.{AddressesFit};

use rig_mem::MemRig;
use server_runs::outside::{datagram, has_sent, opening_calls, rig_of, served, served_all};
use server_runs::volumes::{has_files, rig_with, super_of, with_fault};
use server_runs::worked::{
    ATTRIBUTES, CALL, CREDENTIAL, HANDLE, REPLY, add_words, getattr, status_reply, write_with,
};
use std::alloc::Global;
use std::test::Fail;
use v7_layout::Inode;
use volume_mem::{FRESH, file, sectors_of};

// A call that changes the size of file 3.
#[derive(Clone, Copy)]
enum Change {
    /// A WRITE of "XY" at byte 1,500 of 700 bytes: sectors 6, 7 and 2 are put.
    Write,
    /// A SETATTR of 700 bytes to 1,100: sectors 6 and 2 are put.
    Grow,
    /// A SETATTR of 6,144 bytes to 5,632: sector 2 is put, and the block of addresses, sector 17.
    Shrink,
}

// How far it came.
#[derive(Clone, Copy)]
enum Reached {
    Nothing,
    /// The first put alone: where the file grows the old last sector, sector 6, has zeros past the old size, and where it shrinks the inode has
    /// the new size.
    First,
    All,
}

// File 3 as it is then.
fn inode(change: Change, reached: Reached) -> Inode
    ensures { AddressesFit result }
{
    let old = file(FRESH);
    let changed = Inode {
        mtime: 2000,
        ctime: 2000,
        ..old
    };
    match (change, reached) {
        (Change::Write, Reached::All) => Inode {
            size: 1502,
            direct: [5, 6, 7, 0, 0, 0, 0, 0, 0, 0],
            ..changed
        },
        (Change::Grow, Reached::All) => Inode {
            size: 1100,
            ..changed
        },
        (Change::Shrink, Reached::Nothing) => Inode {
            size: 6144,
            direct: [5, 6, 7, 8, 9, 10, 11, 12, 13, 14],
            single: 17,
            ..old
        },
        (Change::Shrink, _) => Inode {
            size: 5632,
            direct: [5, 6, 7, 8, 9, 10, 11, 12, 13, 14],
            single: 17,
            ..changed
        },
        _ => Inode { size: 700, ..old },
    }
}

// The disk then, but for the free blocks, of a file that grows.
fn grown_disk(alloc: Global, change: Change, reached: Reached) -> Result<Vec<[u8; 512]>, Fail> {
    let mut body = [[b'a'; 512], [b'a'; 512], [0; 512]];
    if !matches!(reached, Reached::Nothing) {
        body[1][188..].copy_from_slice(&[0; 324]);
    }
    body[2][476] = b'X';
    body[2][477] = b'Y';
    Ok(sectors_of(alloc, 0, &inode(change, reached), &body)?)
}

// The same of the one that shrinks: its eleventh and twelfth sectors are 15 and 16.
fn shrunk_disk(alloc: Global, reached: Reached) -> Result<Vec<[u8; 512]>, Fail> {
    let mut body = [[b'a'; 512]; 13];
    body[12] = [0; 512];
    body[12][0] = 15;
    if !matches!(reached, Reached::All) {
        body[12][4] = 16;
    }
    Ok(sectors_of(alloc, 0, &inode(Change::Shrink, reached), &body)?)
}

// The same of each.
fn disk(alloc: Global, change: Change, reached: Reached) -> Result<Vec<[u8; 512]>, Fail> {
    match change {
        Change::Shrink => shrunk_disk(alloc, reached),
        _ => grown_disk(alloc, change, reached),
    }
}

// Whether a call came so far.
fn has_reached(
    alloc: Global,
    rig: &MemRig,
    change: Change,
    reached: Reached,
) -> Result<bool, Fail> {
    let past = match (change, reached) {
        (Change::Shrink, _) => 18,
        (Change::Write, Reached::All) => 8,
        _ => 7,
    };
    Ok(has_files(rig, &disk(alloc, change, reached)?, past))
}

// A SETATTR (RFC 1094 2.2.3) of this size alone.
fn setattr(alloc: Global, size: u32) -> Result<Vec<u8>, Fail> {
    let unset = u32::MAX;
    let mut bytes = Vec::new(alloc);
    add_words(&mut bytes, &CALL)?;
    add_words(&mut bytes, &[2])?;
    add_words(&mut bytes, &CREDENTIAL)?;
    add_words(&mut bytes, &HANDLE)?;
    add_words(&mut bytes, &[1, 0, 0, 0, 0])?;
    add_words(&mut bytes, &[unset, unset, unset, size])?;
    add_words(&mut bytes, &[unset, unset, unset, unset])?;
    Ok(bytes)
}

// The call's datagram.
fn request(alloc: Global, change: Change) -> Result<Vec<u8>, Fail> {
    match change {
        Change::Write => Ok(Vec::from_slice(alloc, &write_with(25, 1500))?),
        Change::Grow => setattr(alloc, 1100),
        Change::Shrink => setattr(alloc, 5632),
    }
}

// Its reply.
fn reply(alloc: Global, change: Change) -> Result<Vec<u8>, Fail> {
    let (size, blocks) = match change {
        Change::Write => (1502, 3),
        Change::Grow => (1100, 3),
        Change::Shrink => (5632, 11),
    };
    let mut words = ATTRIBUTES;
    words[5] = size;
    words[8] = blocks;
    let mut bytes = Vec::new(alloc);
    add_words(&mut bytes, &REPLY)?;
    add_words(&mut bytes, &[0])?;
    add_words(&mut bytes, &words)?;
    Ok(bytes)
}

// The number of a device call after the opening, whether it leaves the newer state, and how far the call came then.
type Row = (u64, bool, Reached);

// Calls 1 to 3 read the super-block, the inode and the old last sector; calls 4 to 6 write sectors 6, 7 and 2.
const WRITE_ROWS: [Row; 12] = [
    (1, false, Reached::Nothing),
    (1, true, Reached::Nothing),
    (2, false, Reached::Nothing),
    (2, true, Reached::Nothing),
    (3, false, Reached::Nothing),
    (3, true, Reached::Nothing),
    (4, false, Reached::Nothing),
    (4, true, Reached::First),
    (5, false, Reached::First),
    (5, true, Reached::First),
    (6, false, Reached::First),
    (6, true, Reached::All),
];

// Calls 1 to 3 read the super-block, the inode, and the old last sector or the block of addresses; calls 4 and 5 write.
const SETATTR_ROWS: [Row; 10] = [
    (1, false, Reached::Nothing),
    (1, true, Reached::Nothing),
    (2, false, Reached::Nothing),
    (2, true, Reached::Nothing),
    (3, false, Reached::Nothing),
    (3, true, Reached::Nothing),
    (4, false, Reached::Nothing),
    (4, true, Reached::First),
    (5, false, Reached::First),
    (5, true, Reached::All),
];

// A rig that is served the call, then crashes, and is served it again: both times it is as it has to be.
fn is_kept(alloc: Global, rig: MemRig, change: Change, reached: Reached) -> Result<bool, Fail> {
    let bytes = request(alloc, change)?;
    let (status, host) = served(alloc, rig, &bytes)?;
    let told = status == 0 && has_sent(&host, &status_reply(5));
    let Some(rig) = rig_of(host) else {
        return Ok(false);
    };
    let rig = rig.crash(true, 0);
    if !told || !has_reached(alloc, &rig, change, reached)? {
        return Ok(false);
    }
    let (status, host) = served(alloc, rig, &bytes)?;
    let told = status == 0 && has_sent(&host, &reply(alloc, change)?);
    let Some(rig) = rig_of(host) else {
        return Ok(false);
    };
    Ok(told && has_reached(alloc, &rig, change, Reached::All)?)
}

// The first row after which a rig isn't as it has to be.
fn broken(
    alloc: Global,
    change: Change,
    rows: &[Row],
    cuts: bool,
) -> Result<Option<(u64, bool)>, Fail> {
    let opening = opening_calls(
        alloc,
        rig_with(alloc, disk(alloc, change, Reached::Nothing)?),
    )?;
    for (number, newer, reached) in rows {
        let disk = disk(alloc, change, Reached::Nothing)?;
        let number_in_all = opening.saturating_add(*number);
        let rig = with_fault(rig_with(alloc, disk), number_in_all, *newer, cuts)?;
        if !is_kept(alloc, rig, change, *reached)? {
            return Ok(Some((*number, *newer)));
        }
    }
    Ok(None)
}

#[test]
fn a_failed_write_grows_its_file_by_its_last_put_alone(rt: HostRuntime) -> Result<(), Fail> {
    assert_eq!(rt;
        broken(rt.alloc(), Change::Write, &WRITE_ROWS, false)?,
        None
    );
    Ok(())
}

#[test]
fn a_cut_write_grows_its_file_by_its_last_put_alone(rt: HostRuntime) -> Result<(), Fail> {
    assert_eq!(rt; broken(rt.alloc(), Change::Write, &WRITE_ROWS, true)?, None);
    Ok(())
}

#[test]
fn a_size_is_set_whole_or_not_at_all_whatever_fails_or_is_cut(rt: HostRuntime) -> Result<(), Fail> {
    for change in [Change::Grow, Change::Shrink] {
        for cuts in [false, true] {
            assert_eq!(rt; broken(rt.alloc(), change, &SETATTR_ROWS, cuts)?, None);
        }
    }
    Ok(())
}

// ---- a hurt volume that is mended

// A rig whose file shrinks by a SETATTR that is cut short: its inode is put, and the block of addresses is not.
fn hurt_rig(alloc: Global) -> Result<MemRig, Fail> {
    let rig = rig_with(alloc, disk(alloc, Change::Shrink, Reached::Nothing)?);
    let opening = opening_calls(alloc, rig)?;
    let rig = rig_with(alloc, disk(alloc, Change::Shrink, Reached::Nothing)?);
    with_fault(rig, opening.saturating_add(5), false, false)
}

// Serves it that SETATTR, and a GETATTR, which mends the volume first; then it is stopped.
fn mended(alloc: Global, rig: MemRig) -> Result<(u8, Option<MemRig>), Fail> {
    let mut events = Vec::new(alloc);
    events.push(datagram(&request(alloc, Change::Shrink)?))?;
    events.push(datagram(&getattr(alloc)?))?;
    let (status, host) = served_all(alloc, rig, events)?;
    Ok((status, rig_of(host)))
}

// Whether the file is the smaller one, with nothing to mend, on a volume that was stopped cleanly.
fn is_mended(alloc: Global, rig: &MemRig) -> Result<bool, Fail> {
    let Some(super_block) = super_of(rig) else {
        return Ok(false);
    };
    Ok(super_block.s_fmod == 0 && has_reached(alloc, rig, Change::Shrink, Reached::All)?)
}

// After a second fault, at a call of the mend or the stop, and a crash, the volume is served and stopped with the same file.
fn is_mended_again(alloc: Global, number: u64, newer: bool, cuts: bool) -> Result<bool, Fail> {
    let rig = with_fault(hurt_rig(alloc)?, number, newer, cuts)?;
    let (status, back) = mended(alloc, rig)?;
    let Some(rig) = back else {
        return Ok(false);
    };
    let (then, host) = served_all(alloc, rig.crash(true, 0), Vec::new(alloc))?;
    let Some(rig) = rig_of(host) else {
        return Ok(false);
    };
    Ok((status == 0 || status == 74) && then == 0 && is_mended(alloc, &rig)?)
}

// The first call after the SETATTR at which a fault leaves another file.
fn broken_mend(alloc: Global, first: u64, last: u64) -> Result<Option<(u64, bool, bool)>, Fail> {
    for number in first..=last {
        for newer in [false, true] {
            for cuts in [false, true] {
                if !is_mended_again(alloc, number, newer, cuts)? {
                    return Ok(Some((number, newer, cuts)));
                }
            }
        }
    }
    Ok(None)
}

#[test]
fn a_hurt_volume_keeps_its_files_whatever_fails_or_is_cut_while_it_is_mended(
    rt: HostRuntime,
) -> Result<(), Fail> {
    let alloc = rt.alloc();
    let rig = rig_with(alloc, disk(alloc, Change::Shrink, Reached::Nothing)?);
    let opening = opening_calls(alloc, rig)?;
    let (status, back) = mended(alloc, hurt_rig(alloc)?)?;
    let Some(rig) = back else {
        panic!(rt; "no rig came back");
    };
    assert!(rt; status == 0 && is_mended(alloc, &rig)?);
    assert_eq!(rt;
        broken_mend(alloc, opening.saturating_add(6), rig.calls())?,
        None
    );
    Ok(())
}
