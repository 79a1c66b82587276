//! Runs over a disk with a board of 64 buffers in front of it.
ghost use Rattle.v7_layout.specs.Written.{AddressesFit};

use rig::Rig;
use rig_mem::{MemEvent, MemRig};
use server_runs::boards::{small, with_board};
use server_runs::outside::{
    datagram, has_said, has_sent, has_sent_all, host_at, opening_calls, rig_of, run, served_by,
};
use server_runs::volumes::{has_disk, has_files, is_volume};
use server_runs::worked::{
    CALL, CREDENTIAL, HANDLE, REPLY, WRITE, add_words, getattr, status_reply, worked_reply,
    worked_write,
};
use std::alloc::Global;
use std::test::Fail;
use v7_layout::Inode;
use volume_mem::{FRESH, WRITTEN, file, sectors_of, test_volume};

// ---- a long WRITE

// A file of 16 held sectors: 5 to 14 by its inode, 16 to 21 by its indirect block, sector 15.
fn long_file(changed: u32) -> Inode
    ensures { AddressesFit result }
{
    Inode {
        size: 8192,
        direct: [5, 6, 7, 8, 9, 10, 11, 12, 13, 14],
        single: 15,
        mtime: changed,
        ctime: changed,
        ..file(FRESH)
    }
}

// The first sector past that file.
const PAST_LONG: usize = 22;

// The disk of that file after so many puts of a WRITE of 8,192 bytes `Z`: 16 of data, and then the inode's.
fn long_disk(alloc: Global, puts: usize) -> Result<Vec<[u8; 512]>, Fail> {
    let mut addresses = [0; 512];
    let mut blocks = Vec::new(alloc);
    for index in 0..6 {
        addresses[4 * index] = 16 + index as u8;
    }
    for index in 0..16 {
        if index == 10 {
            blocks.push(addresses)?;
        }
        let byte = if index < puts { b'Z' } else { b'a' };
        blocks.push([byte; 512])?;
    }
    let changed = if puts > 16 { 2000 } else { 1000 };
    Ok(sectors_of(alloc, 0, &long_file(changed), &blocks)?)
}

// The WRITE of 8,192 bytes `Z` at the file's begin.
fn long_write(alloc: Global) -> Result<Vec<u8>, Fail> {
    let mut bytes = Vec::new(alloc);
    add_words(&mut bytes, &CALL)?;
    add_words(&mut bytes, &[WRITE])?;
    add_words(&mut bytes, &CREDENTIAL)?;
    add_words(&mut bytes, &HANDLE)?;
    add_words(&mut bytes, &[1, 0, 0, 0, 0, 0, 0, 0, 8192])?;
    bytes.extend_from_slice(&[b'Z'; 8192])?;
    Ok(bytes)
}

// Its reply at second 2000.
fn long_reply(alloc: Global) -> Result<Vec<u8>, Fail> {
    let mut bytes = Vec::new(alloc);
    add_words(&mut bytes, &REPLY)?;
    add_words(
        &mut bytes,
        &[0, 1, 0x81a4, 1, 0x64, 0x64, 8192, 0x200, 0, 16],
    )?;
    add_words(&mut bytes, &[0, 3, 0x3e8, 0, 0x7d0, 0, 0x7d0, 0])?;
    Ok(bytes)
}

// How many device calls the long WRITE makes before its first store on the board: it reads the super-block, the inode and the indirect block, and
// none of the sectors that it gives whole.
const READS: u64 = 3;

// Serves the long WRITE over a rig that is cut at that store of the board, counted from 1.
fn cut_at(
    alloc: Global,
    store: u64,
    newer: bool,
) -> Result<(u8, server_runs::outside::Host), Fail> {
    let opening = opening_calls(alloc, with_board(alloc, &long_disk(alloc, 0)?, 64)?)?;
    let mut rig = with_board(alloc, &long_disk(alloc, 0)?, 64)?;
    rig.stop_at(opening.saturating_add(READS).saturating_add(store), newer);
    let mut events = Vec::new(alloc);
    events.push(datagram(&long_write(alloc)?))?;
    served_by(alloc, rig, &["d:b"], events)
}

// Serves nothing over what a crash left of the rig, so that its board is recovered.
fn recovered(alloc: Global, rig: MemRig) -> Result<Option<MemRig>, Fail> {
    let (status, host) = served_by(alloc, rig.crash(true, 0), &["d:b"], Vec::new(alloc))?;
    if status != 0 {
        return Ok(None);
    }
    Ok(rig_of(host))
}

#[test]
fn a_long_write_stays_on_the_board(rt: HostRuntime) -> Result<(), Fail> {
    let alloc = rt.alloc();
    let (status, host) = cut_at(alloc, 35, false)?;
    assert_eq!(rt; status, 74);
    assert!(rt; has_sent(&host, &long_reply(alloc)?));
    assert!(rt;
        has_said(
            &host,
            &[
                "volume 0 VOLA00 up recovered 0",
                "volume 0 error dirty 17",
                "received 1 answered 1 dropped 0",
                "device failed on volume 0",
            ]
        )
    );
    let Some(rig) = rig_of(host) else {
        panic!(rt; "no rig came back");
    };
    assert!(rt; has_files(&rig, &long_disk(alloc, 0)?, PAST_LONG));
    let (status, host) = served_by(alloc, rig.crash(true, 0), &["d:b"], Vec::new(alloc))?;
    assert_eq!(rt; status, 0);
    assert!(rt;
        has_said(
            &host,
            &[
                "volume 0 VOLA00 up recovered 17",
                "volume 0 down dirty 0",
                "received 0 answered 0 dropped 0",
            ]
        )
    );
    let Some(rig) = rig_of(host) else {
        panic!(rt; "no rig came back");
    };
    assert!(rt; has_files(&rig, &long_disk(alloc, 17)?, PAST_LONG));
    Ok(())
}

#[test]
fn a_cut_long_write_leaves_its_first_sectors(rt: HostRuntime) -> Result<(), Fail> {
    let alloc = rt.alloc();
    for store in 1..=34u64 {
        for newer in [false, true] {
            let (_, host) = cut_at(alloc, store, newer)?;
            let Some(rig) = rig_of(host) else {
                panic!(rt; "no rig came back");
            };
            // a buffer is stored, and then its word
            let next = if store % 2 == 0 && newer { 1 } else { 0 };
            let puts = (store.saturating_sub(1) / 2).saturating_add(next) as usize;
            let Some(rig) = recovered(alloc, rig)? else {
                panic!(rt; "not recovered");
            };
            assert!(rt;
                has_files(&rig, &long_disk(alloc, puts)?, PAST_LONG),
                "store {store}, newer {newer}"
            );
        }
    }
    Ok(())
}

// ---- boards that are refused

#[derive(Clone, Copy)]
enum Board {
    Whole,
    Lost,
    /// The disk has the name `VOLB00`.
    OfAnother,
    /// This word has this value.
    Word(u32, u64),
}

fn rig_of_board(alloc: Global, board: Board) -> Result<MemRig, Fail> {
    let mut rig = small(alloc)?;
    match board {
        Board::Whole => Ok(rig),
        Board::Lost => Ok(rig.crash(false, 12345)),
        Board::OfAnother => {
            let mut bytes = [0; 512];
            if rig.sectors() < 2 || rig.read(1, &mut bytes).is_err() {
                return Err("no super-block".into());
            }
            bytes[437] = b'B';
            if rig.write(1, &bytes).is_err() {
                return Err("no super-block".into());
            }
            Ok(rig)
        }
        Board::Word(index, word) => {
            if index >= rig.words() || rig.store_word(index, word).is_err() {
                return Err("no word".into());
            }
            Ok(rig)
        }
    }
}

const STOPPED: &str = "volume 0 down dirty 0";

const NOTHING: &str = "received 0 answered 0 dropped 0";

// A board, the words, the status, and the lines.
type Row = (Board, &'static [&'static str], u8, &'static [&'static str]);

const ROWS: [Row; 8] = [
    (
        Board::Whole,
        &["d:b"],
        0,
        &["volume 0 VOLA00 up recovered 0", STOPPED, NOTHING],
    ),
    (
        Board::Whole,
        &["d:b", "--down"],
        0,
        &["volume 0 VOLA00 down recovered 0", STOPPED, NOTHING],
    ),
    (
        Board::OfAnother,
        &["d:b"],
        67,
        &["board VOLA00 is not of volume VOLB00"],
    ),
    (
        Board::Word(0, 0),
        &["d:b"],
        70,
        &["board of volume 0 not formatted"],
    ),
    (
        Board::Word(2, 5),
        &["d:b"],
        68,
        &["board of volume 0: entry 0 bad"],
    ),
    (
        Board::Lost,
        &["d:b"],
        69,
        &["board of volume 0 lost its memory"],
    ),
    (
        Board::Lost,
        &["d:b", "--accept-loss"],
        0,
        &[
            "volume 0: lost board accepted",
            "volume 0 VOLA00 up recovered 0",
            STOPPED,
            NOTHING,
        ],
    ),
    (
        Board::Whole,
        &["d:b", "--accept-loss"],
        0,
        &["volume 0 VOLA00 up recovered 0", STOPPED, NOTHING],
    ),
];

#[test]
fn a_board_of_no_volume_is_refused(rt: HostRuntime) -> Result<(), Fail> {
    for (found, words, status, lines) in ROWS {
        let rig = rig_of_board(rt.alloc(), found)?;
        let twin = rig_of_board(rt.alloc(), found)?;
        let (answered, host) = served_by(rt.alloc(), rig, words, Vec::new(rt.alloc()))?;
        assert_eq!(rt; answered, status);
        assert!(rt; has_said(&host, lines), "status {status}");
        let Some(back) = rig_of(host) else {
            panic!(rt; "no rig came back");
        };
        assert!(rt; has_files(&back, twin.disk(), 7));
        assert!(rt; status == 0 || has_disk(&back, twin.disk()));
    }
    Ok(())
}

// ---- the battery, and a device that fails

// The device call after the three flushes, counted from the opening on. Before them the WRITE reads the super-block, the inode
// and two sectors of data, and stores three buffers and their words; a flush reads a buffer, writes a sector, and clears a word.
const AFTER_FLUSHES: u64 = 20;

// The WRITE at second 2000, three turns without a datagram at the next second, at which the battery is low, and a GETATTR
// at which the rig is cut. So the stopping can write no chain, and the Down at the end flush nothing.
fn cut_with_a_low_battery(alloc: Global) -> Result<(u8, server_runs::outside::Host), Fail> {
    let opening = opening_calls(alloc, small(alloc)?)?;
    let mut rig = small(alloc)?;
    rig.low_from(2);
    rig.stop_at(opening.saturating_add(AFTER_FLUSHES), false);
    let mut events = Vec::new(alloc);
    events.push(datagram(&worked_write()))?;
    for _ in 0..3 {
        events.push(MemEvent::Idle)?;
    }
    events.push(datagram(&getattr(alloc)?))?;
    let mut host = host_at(alloc, rig, &[2000], events, &[2000, 2001])?;
    let status = run(alloc, &["d:b"], &mut host)?;
    Ok((status, host))
}

#[test]
fn what_a_low_battery_sent_to_the_disk_outlasts_the_board(rt: HostRuntime) -> Result<(), Fail> {
    let alloc = rt.alloc();
    let (status, host) = cut_with_a_low_battery(alloc)?;
    assert_eq!(rt; status, 74);
    let mut replies = Vec::new(alloc);
    replies.push(Vec::from_slice(alloc, &worked_reply())?)?;
    replies.push(Vec::from_slice(alloc, &status_reply(5))?)?;
    assert!(rt; has_sent_all(&host, &replies));
    assert!(rt;
        has_said(
            &host,
            &[
                "volume 0 VOLA00 up recovered 0",
                STOPPED,
                "received 2 answered 2 dropped 0",
                "device failed on volume 0",
            ]
        )
    );
    let Some(rig) = rig_of(host) else {
        panic!(rt; "no rig came back");
    };
    let rig = rig.crash(false, 7);
    assert!(rt; is_volume(alloc, &rig, WRITTEN)?);
    let (status, host) = served_by(alloc, rig, &["d:b", "--accept-loss"], Vec::new(alloc))?;
    assert_eq!(rt; status, 0);
    assert!(rt;
        has_said(
            &host,
            &[
                "volume 0: lost board accepted",
                "volume 0 VOLA00 up recovered 0",
                STOPPED,
                NOTHING,
            ]
        )
    );
    Ok(())
}

#[test]
fn what_stays_dirty_at_the_end_is_told(rt: HostRuntime) -> Result<(), Fail> {
    let alloc = rt.alloc();
    let mut rig = small(alloc)?;
    rig.break_sector(2)?;
    let mut events = Vec::new(alloc);
    events.push(datagram(&worked_write()))?;
    let (status, host) = served_by(alloc, rig, &["d:b"], events)?;
    assert_eq!(rt; status, 74);
    assert!(rt;
        has_said(
            &host,
            &[
                "volume 0 VOLA00 up recovered 0",
                "volume 0 error dirty 1",
                "received 1 answered 1 dropped 0",
                "device failed on volume 0",
            ]
        )
    );
    let Some(mut rig) = rig_of(host) else {
        panic!(rt; "no rig came back");
    };
    rig.heal();
    let Some(rig) = recovered(alloc, rig)? else {
        panic!(rt; "not recovered");
    };
    assert!(rt; is_volume(alloc, &rig, WRITTEN)?);
    Ok(())
}
