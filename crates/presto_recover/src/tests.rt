// Over a disk of 14 sectors and a board of four buffers in memory, so of three entries.
use crate::{OpenFault, Opened, open};
use nvram_map::{BoardFault, entry_word, format};
use presto_unit::Presto;
use rig::{Battery, Failed, NoMemory, Rig};
use rig_mem::MemRig;
use stable::{Answer, Cause, Command, Stable, State, Tended};
use std::alloc::Global;
use std::test::Fail;

// "VOLA00" and "VOLB00"
const VOLUME: [u8; 6] = [0x56, 0x4F, 0x4C, 0x41, 0x30, 0x30];

const OTHER: [u8; 6] = [0x56, 0x4F, 0x4C, 0x42, 0x30, 0x30];

const SECTORS: u32 = 14;

// A super-block with that name.
fn super_block(name: [u8; 6]) -> [u8; 512] {
    let mut bytes = [0; 512];
    bytes[434..440].copy_from_slice(&name);
    bytes
}

// A disk with that name, and a board formatted as that of VOLA00.
fn formatted(alloc: Global, title: [u8; 6]) -> Result<MemRig, NoMemory> {
    let mut rig = MemRig::new(alloc, SECTORS, 4)?;
    if rig.sectors() < 2 || rig.write(1, &super_block(title)).is_err() {
        return Err(NoMemory);
    }
    if rig.buffers() == 0 || format(&mut rig, VOLUME).is_err() {
        return Err(NoMemory);
    }
    Ok(rig)
}

// Stores a word where the board has it.
fn store(rig: &mut MemRig, index: u32, word: u64) -> Result<(), Failed> {
    if index >= rig.words() {
        return Err(Failed);
    }
    rig.store_word(index, word)
}

// The board has these bytes in place of a sector.
fn lay(rig: &mut MemRig, index: u32, sector: u32, bytes: &[u8; 512]) -> Result<(), Failed> {
    if index > 2 || index >= rig.buffers() {
        return Err(Failed);
    }
    rig.store_buffer(index, bytes)?;
    store(rig, index + 2, entry_word(sector, index))
}

// The board has 1, 2 and 3 in place of the sectors 10, 11 and 12, in which the disk has 0.
fn three_entries(alloc: Global) -> Option<MemRig> {
    let mut rig = formatted(alloc, VOLUME).ok()?;
    for index in 0..3 {
        let byte = 1 + index as u8;
        lay(&mut rig, index, 10 + index, &[byte; 512]).ok()?;
    }
    Some(rig)
}

// Whether the disk has that byte alone in a sector.
fn on_disk(rig: &MemRig, sector: usize, byte: u8) -> bool {
    match rig.disk().get(sector) {
        Some(bytes) => *bytes == [byte; 512],
        None => false,
    }
}

// Whether the store does.
fn has<S: Stable>(store: &mut S, sector: u32, byte: u8) -> bool {
    let mut bytes = [0; 512];
    sector < store.sectors() && store.get(sector, &mut bytes).is_ok() && bytes == [byte; 512]
}

fn put<S: Stable>(store: &mut S, sector: u32, byte: u8) -> bool {
    sector < store.sectors() && store.put(sector, &[byte; 512]).is_ok()
}

// A word of the board, where it has it.
fn word_at(rig: &mut MemRig, index: u32) -> Option<u64> {
    if index >= rig.words() {
        return None;
    }
    rig.load_word(index).ok()
}

// Whether disks and words are the same.
fn same(one: &mut MemRig, other: &mut MemRig) -> bool {
    if one.disk() != other.disk() || one.words() != other.words() {
        return false;
    }
    for index in 0..one.words() {
        if word_at(one, index) != word_at(other, index) {
            return false;
        }
    }
    true
}

/// A rig that isn't opened.
#[derive(Clone, Copy, Debug)]
enum Refused {
    OneSector,
    Lost,
    /// The disk has another name, and the board's third word is this.
    Titled(u64),
    /// One word of the board is this.
    Word(u32, u64),
    /// The board has a super-block with another name.
    TwoNames,
}

impl Refused {
    fn rig(self, alloc: Global) -> Option<MemRig> {
        let mut rig = match self {
            Refused::Titled(_) => formatted(alloc, OTHER).ok()?,
            _ => formatted(alloc, VOLUME).ok()?,
        };
        match self {
            Refused::OneSector => MemRig::new(alloc, 1, 4).ok(),
            Refused::Lost => Some(rig.crash(false, 12345)),
            Refused::Titled(word) => {
                store(&mut rig, 2, word).ok()?;
                Some(rig)
            }
            Refused::Word(index, word) => {
                store(&mut rig, index, word).ok()?;
                Some(rig)
            }
            Refused::TwoNames => {
                lay(&mut rig, 1, 1, &super_block(OTHER)).ok()?;
                Some(rig)
            }
        }
    }
}

const REFUSED: [(Refused, OpenFault); 6] = [
    (Refused::OneSector, OpenFault::NoSuper { sectors: 1 }),
    (
        Refused::Word(0, 0),
        OpenFault::Board(BoardFault::NotFormatted { word: 0 }),
    ),
    (
        Refused::Titled(5),
        OpenFault::Board(BoardFault::WrongVolume {
            board: VOLUME,
            volume: OTHER,
        }),
    ),
    (
        Refused::Word(2, 5),
        OpenFault::Board(BoardFault::BadEntry { index: 0, word: 5 }),
    ),
    (
        Refused::TwoNames,
        OpenFault::Board(BoardFault::WrongVolume {
            board: VOLUME,
            volume: OTHER,
        }),
    ),
    (Refused::Lost, OpenFault::Board(BoardFault::Lost)),
];

#[test]
fn what_is_not_of_the_volume_is_refused_and_left_alone(rt: HostRuntime) -> Result<(), Fail> {
    for (refused, fault) in REFUSED {
        let rig = refused.rig(rt.alloc()).ok_or("making")?;
        let mut twin = refused.rig(rt.alloc()).ok_or("making")?;
        let Err((why, mut back)) = open(rt.alloc(), rig, false) else {
            return Err("opened".into());
        };
        assert_eq!(rt; why, fault);
        assert!(rt; same(&mut back, &mut twin), "{refused:?} is left alone");
    }
    Ok(())
}

#[test]
fn a_lost_board_is_begun_anew_where_the_loss_is_accepted(rt: HostRuntime) -> Result<(), Fail> {
    let rig = three_entries(rt.alloc())
        .ok_or("making")?
        .crash(false, 12345);
    let Ok(opened) = open(rt.alloc(), rig, true) else {
        return Err("not begun anew".into());
    };
    assert!(rt; opened.lost && opened.recovered == 0);
    assert!(rt; opened.presto.state() == State::Down);
    let rig = opened.presto.into_rig();
    assert!(rt; on_disk(&rig, 10, 0));
    let Ok(again) = open(rt.alloc(), rig.crash(true, 1), false) else {
        return Err("not kept".into());
    };
    assert!(rt; !again.lost && again.recovered == 0);
    Ok(())
}

#[test]
fn a_disk_without_a_board_stays_down(rt: HostRuntime) -> Result<(), Fail> {
    let rig = MemRig::new(rt.alloc(), 8, 0)?;
    let Ok(
        Opened {
            mut presto,
            recovered,
            lost,
        },
    ) = open(rt.alloc(), rig, false)
    else {
        return Err("not opened".into());
    };
    assert!(rt; recovered == 0 && !lost);
    assert!(rt; presto.command(Command::Up) == Answer::BatteryLow);
    assert!(rt; put(&mut presto, 5, 7) && has(&mut presto, 5, 7));
    let shown = presto.snapshot();
    assert!(rt;
        shown.state == State::Down && shown.dirty == 0 && shown.ups == 1 && shown.puts == 1
    );
    assert!(rt; shown.battery == Battery::Low);
    Ok(())
}

#[test]
fn a_sector_kept_in_up_is_recovered_after_a_crash(rt: HostRuntime) -> Result<(), Fail> {
    let rig = formatted(rt.alloc(), VOLUME)?;
    let Ok(Opened { mut presto, .. }) = open(rt.alloc(), rig, false) else {
        return Err("not opened".into());
    };
    assert!(rt; presto.command(Command::Up) == Answer::Done);
    assert!(rt; put(&mut presto, 5, 7));
    assert!(rt; put(&mut presto, 5, 8) && put(&mut presto, 6, 9) && put(&mut presto, 7, 1));
    // three entries stand, and the oldest makes room
    assert!(rt; put(&mut presto, 2, 3) && presto.dirty() == 3);
    let rig = presto.into_rig();
    assert!(rt; on_disk(&rig, 5, 8) && on_disk(&rig, 6, 0));
    let Ok(
        Opened {
            presto,
            recovered,
            lost,
        },
    ) = open(rt.alloc(), rig.crash(true, 1), false)
    else {
        return Err("not opened again".into());
    };
    assert!(rt; recovered == 3 && !lost && presto.state() == State::Down);
    let rig = presto.into_rig();
    assert!(rt; on_disk(&rig, 5, 8) && on_disk(&rig, 6, 9));
    assert!(rt; on_disk(&rig, 7, 1) && on_disk(&rig, 2, 3));
    Ok(())
}

#[test]
fn a_broken_sector_is_left_dirty_in_error(rt: HostRuntime) -> Result<(), Fail> {
    let mut rig = three_entries(rt.alloc()).ok_or("making")?;
    rig.break_sector(11)?;
    let Ok(
        Opened {
            mut presto,
            recovered,
            ..
        },
    ) = open(rt.alloc(), rig, false)
    else {
        return Err("not opened".into());
    };
    assert!(rt; recovered == 2 && presto.dirty() == 1);
    assert!(rt; presto.state() == State::Error(Cause::Disk));
    assert!(rt; has(&mut presto, 11, 2));
    assert!(rt; presto.command(Command::Reset) == Answer::Left(1));
    let mut rig = presto.into_rig();
    assert!(rt; on_disk(&rig, 10, 1) && on_disk(&rig, 11, 0) && on_disk(&rig, 12, 3));
    rig.heal();
    let Ok(
        Opened {
            presto,
            recovered,
            ..
        },
    ) = open(rt.alloc(), rig, false)
    else {
        return Err("not opened once healed".into());
    };
    assert!(rt; recovered == 1 && presto.state() == State::Down);
    assert!(rt; on_disk(&presto.into_rig(), 11, 2));
    Ok(())
}

// The rig as an opening left it.
fn left_by(outcome: Result<Opened<MemRig>, (OpenFault, MemRig)>) -> MemRig {
    match outcome {
        Ok(opened) => opened.presto.into_rig(),
        Err((_, rig)) => rig,
    }
}

// A rig to be opened: with three entries, or with a lost board.
fn to_open(alloc: Global, lost: bool) -> Option<MemRig> {
    let rig = three_entries(alloc)?;
    if lost {
        Some(rig.crash(false, 12345))
    } else {
        Some(rig)
    }
}

#[test]
fn an_opening_that_is_cut_is_begun_again(rt: HostRuntime) -> Result<(), Fail> {
    for lost in [false, true] {
        let rig = to_open(rt.alloc(), lost).ok_or("making")?;
        let before = rig.calls();
        let after = left_by(open(rt.alloc(), rig, lost)).calls();
        assert!(rt; before < after);
        for number in before..after {
            for newer in [false, true] {
                let mut rig = to_open(rt.alloc(), lost).ok_or("making")?;
                rig.stop_at(number.saturating_add(1), newer);
                let cut = left_by(open(rt.alloc(), rig, lost));
                let Ok(Opened { presto, .. }) = open(rt.alloc(), cut.crash(true, 1), lost) else {
                    return Err("not opened again".into());
                };
                assert!(rt; presto.state() == State::Down && presto.dirty() == 0);
                let rig = presto.into_rig();
                for index in 0..3 {
                    let byte = if lost { 0 } else { 1 + index as u8 };
                    assert!(rt; on_disk(&rig, 10 + index, byte));
                }
            }
        }
    }
    Ok(())
}
