// Tests over a board of four buffers in memory, so of three entries.
ghost use Rattle.std.specs.Prelude.{◌<◌, IfSome};
ghost use Rattle.presto_cache.specs.Cache.{Knows};

use super::Presto;
use crate::read::read_through;
use nvram_map::{format, read_board};
use presto_cache::Cache;
use presto_states::Ring;
use rig::{Battery, NoMemory, Rig};
use rig_mem::MemRig;
use stable::{Answer, Cause, Command, FlushAnswer, Stable, State, SteeredStore, Tended};
use std::alloc::Global;
use std::test::Fail;

// "VOLA00"
const VOLUME: [u8; 6] = [0x56, 0x4F, 0x4C, 0x41, 0x30, 0x30];

/// The number of sectors.
const SECTORS: u32 = 14;

// Sectors of zeros, and a formatted board. Formatting makes five device calls.
fn formatted(alloc: Global) -> Result<MemRig, NoMemory> {
    let mut rig = MemRig::new(alloc, SECTORS, 4)?;
    if rig.buffers() == 0 || format(&mut rig, VOLUME).is_err() {
        return Err(NoMemory);
    }
    Ok(rig)
}

// The cache of a board that can be read. Reading makes five device calls.
fn read_cache<R: Rig>(alloc: Global, rig: &mut R) -> Option<Cache>
    ensures { IfSome result (Knows R.Rig rig.new) }
{
    let buffers = rig.buffers();
    // its contract says that the number of sectors has 32 bits
    let _sectors = rig.sectors();
    if buffers == 0 {
        return None;
    }
    let Ok(board) = read_board(alloc, rig, VOLUME) else {
        return None;
    };
    let Ok(cache) = Cache::new(alloc, &board, buffers) else {
        return None;
    };
    Some(cache)
}

// A unit on the board as it was left: DOWN, or in ERROR by this cause.
fn opened(alloc: Global, rig: MemRig, cause: Cause) -> Option<Presto<MemRig>> {
    let mut rig = rig;
    let cache = read_cache(alloc, &mut rig)?;
    let ring = Ring::new(alloc).ok()?;
    Some(Presto::start(rig, cache, ring, cause))
}

// A unit on a formatted board, in UP.
fn up(alloc: Global, rig: MemRig) -> Option<Presto<MemRig>> {
    let mut unit = opened(alloc, rig, Cause::Disk)?;
    if unit.command(Command::Up) == Answer::Done {
        Some(unit)
    } else {
        None
    }
}

// Puts a sector of equal bytes; whether it answered Ok.
fn put<S: Stable>(store: &mut S, sector: u32, byte: u8) -> bool {
    sector < store.sectors() && store.put(sector, &[byte; 512]).is_ok()
}

// Whether a store has the sector with these equal bytes.
fn has<S: Stable>(store: &mut S, sector: u32, byte: u8) -> bool {
    let mut bytes = [0; 512];
    sector < store.sectors() && store.get(sector, &mut bytes).is_ok() && bytes == [byte; 512]
}

// Whether the disk itself has it.
fn on_disk(rig: &MemRig, sector: usize, byte: u8) -> bool {
    match rig.disk().get(sector) {
        Some(bytes) => *bytes == [byte; 512],
        None => false,
    }
}

// Sectors 10, 11 and 12 are dirty, in this order.
fn three_dirty(alloc: Global, rig: MemRig) -> Option<Presto<MemRig>> {
    let mut unit = up(alloc, rig)?;
    if put(&mut unit, 10, 1) && put(&mut unit, 11, 2) && put(&mut unit, 12, 3) {
        Some(unit)
    } else {
        None
    }
}

#[test]
fn a_broken_sector_goes_to_error_and_is_reset_once_it_is_healed(
    rt: HostRuntime,
) -> Result<(), Fail> {
    let mut rig = formatted(rt.alloc())?;
    rig.break_sector(10)?;
    let mut unit = three_dirty(rt.alloc(), rig).ok_or("opening")?;
    assert!(rt; put(&mut unit, 13, 4));
    assert!(rt; unit.state() == State::Error(Cause::Disk));
    assert!(rt; unit.dirty() == 3 && unit.changes() == 2);
    assert!(rt; unit.command(Command::Down) == Answer::Left(1));
    assert!(rt; unit.command(Command::Up) == Answer::NotDown);
    assert!(rt; unit.state() == State::Error(Cause::Disk));
    let mut rig = unit.into_rig();
    assert!(rt; on_disk(&rig, 13, 4) && on_disk(&rig, 11, 2) && on_disk(&rig, 12, 3));
    assert!(rt; on_disk(&rig, 10, 0));
    rig.heal();
    let mut unit = opened(rt.alloc(), rig, Cause::Disk).ok_or("opening again")?;
    assert!(rt; unit.state() == State::Error(Cause::Disk) && unit.dirty() == 1);
    assert!(rt; unit.command(Command::Reset) == Answer::Done);
    assert!(rt; unit.state() == State::Down && unit.dirty() == 0);
    assert!(rt; on_disk(&unit.into_rig(), 10, 1));
    Ok(())
}

// Whether three entries are flushed, one after the other.
fn flushes_three(unit: &mut Presto<MemRig>) -> bool {
    let mut flushed = true;
    for _entry in 0..3 {
        flushed = unit.flush_one() == FlushAnswer::Flushed && flushed;
    }
    flushed
}

// Whether a poll reads what the battery says, and leads to this state.
fn polls(unit: &mut Presto<MemRig>, battery: Battery, state: State) -> bool {
    unit.set_battery(battery);
    unit.poll() == battery && unit.state() == state
}

#[test]
fn a_low_battery_sends_all_to_the_disk(rt: HostRuntime) -> Result<(), Fail> {
    let rig = formatted(rt.alloc())?;
    let mut unit = three_dirty(rt.alloc(), rig).ok_or("opening")?;
    assert!(rt; polls(&mut unit, Battery::Low, State::Error(Cause::Battery)));
    assert!(rt; flushes_three(&mut unit));
    assert!(rt; unit.flush_one() == FlushAnswer::Nothing);
    let shown = unit.snapshot();
    assert!(rt; shown.polls == 1 && shown.ups == 1 && shown.tries == 3 && shown.puts == 3);
    // the board's memory is gone, and nothing was needed of it
    let lost = unit.into_rig().crash(false, 12345);
    assert!(rt; on_disk(&lost, 10, 1) && on_disk(&lost, 11, 2) && on_disk(&lost, 12, 3));
    Ok(())
}

#[test]
fn a_good_battery_leads_back_to_up(rt: HostRuntime) -> Result<(), Fail> {
    let mut unit = three_dirty(rt.alloc(), formatted(rt.alloc())?).ok_or("opening")?;
    assert!(rt; polls(&mut unit, Battery::Low, State::Error(Cause::Battery)));
    assert!(rt; polls(&mut unit, Battery::Good, State::Error(Cause::Battery)));
    assert!(rt; flushes_three(&mut unit) && polls(&mut unit, Battery::Good, State::Up));
    assert!(rt; unit.command(Command::Down) == Answer::Done);
    unit.set_battery(Battery::Low);
    assert!(rt; unit.command(Command::Up) == Answer::BatteryLow);
    assert!(rt; unit.state() == State::Down);
    Ok(())
}

/// What is done to a unit, and in which state.
#[derive(Clone, Copy, Debug)]
enum Deed {
    /// In UP, of a sector that has an entry, of one that has none, and on a full board.
    PutUp { entries: u32, sector: u32 },
    /// In DOWN.
    PutDown,
    /// In ERROR, of a sector that has an entry, and of one that has none.
    PutInError { sector: u32 },
    Flush,
    Command(Command),
    /// In ERROR.
    CommandInError(Command),
}

const DEEDS: [Deed; 12] = [
    Deed::PutUp {
        entries: 2,
        sector: 10,
    },
    Deed::PutUp {
        entries: 2,
        sector: 13,
    },
    Deed::PutUp {
        entries: 3,
        sector: 13,
    },
    Deed::PutDown,
    Deed::PutInError { sector: 10 },
    Deed::PutInError { sector: 13 },
    Deed::Flush,
    Deed::Command(Command::Down),
    Deed::Command(Command::Flush),
    Deed::CommandInError(Command::Down),
    Deed::CommandInError(Command::Flush),
    Deed::CommandInError(Command::Reset),
];

impl Deed {
    // How many of the sectors 10, 11 and 12 are dirty before; they hold 1, 2 and 3.
    fn entries(self) -> u32 {
        match self {
            Deed::PutUp { entries, .. } => entries,
            Deed::PutDown => 0,
            _ => 3,
        }
    }

    // Makes the state in which it is done.
    fn prepare(self, unit: &mut Presto<MemRig>) -> bool {
        let mut done = unit.command(Command::Up) == Answer::Done;
        for entry in 0..self.entries().min(3) {
            done = done && put(unit, 10 + entry, 1 + entry as u8);
        }
        match self {
            Deed::PutDown => done && unit.command(Command::Down) == Answer::Done,
            Deed::PutInError { .. } | Deed::CommandInError(_) => {
                unit.set_battery(Battery::Low);
                done && unit.poll() == Battery::Low
            }
            _ => done,
        }
    }

    // Does it. A put is of nines.
    fn run(self, unit: &mut Presto<MemRig>) {
        match self {
            Deed::PutUp { sector, .. } | Deed::PutInError { sector } => {
                put(unit, sector, 9);
            }
            Deed::PutDown => {
                put(unit, 10, 9);
            }
            Deed::Flush => {
                let _ = unit.flush_one();
            }
            Deed::Command(command) | Deed::CommandInError(command) => {
                let _ = unit.command(command);
            }
        }
    }

    // The sector that it puts.
    fn sector(self) -> Option<u32> {
        match self {
            Deed::PutUp { sector, .. } | Deed::PutInError { sector } => Some(sector),
            Deed::PutDown => Some(10),
            _ => None,
        }
    }
}

/// A device call of a deed, counted from its first, that fails or is cut, and whether it leaves the newer state.
#[derive(Clone, Copy, Debug)]
struct Trouble {
    call: u64,
    newer: bool,
    cut: bool,
}

// Does a deed with that trouble on a rig whose earlier device calls number so many; the rig then.
fn troubled(alloc: Global, deed: Deed, before: u64, trouble: Trouble) -> Option<MemRig> {
    let mut rig = formatted(alloc).ok()?;
    let number = before.checked_add(trouble.call)?;
    if trouble.cut {
        rig.stop_at(number, trouble.newer);
    } else {
        rig.fail(number, trouble.newer).ok()?;
    }
    let mut unit = opened(alloc, rig, Cause::Disk)?;
    if !deed.prepare(&mut unit) {
        return None;
    }
    deed.run(&mut unit);
    Some(unit.into_rig())
}

// The number of device calls before a deed, and after it.
fn calls(alloc: Global, deed: Deed) -> Option<(u64, u64)> {
    let mut unit = opened(alloc, formatted(alloc).ok()?, Cause::Disk)?;
    if !deed.prepare(&mut unit) {
        return None;
    }
    let rig = unit.into_rig();
    let before = rig.calls();
    let mut unit = opened(alloc, formatted(alloc).ok()?, Cause::Disk)?;
    if !deed.prepare(&mut unit) {
        return None;
    }
    deed.run(&mut unit);
    Some((before, unit.into_rig().calls()))
}

// The first byte of a sector as a kept board completes the disk; None where its bytes differ or it can't be read.
fn shown(alloc: Global, rig: &mut MemRig, sector: u32) -> Option<u8> {
    let mut bytes = [0; 512];
    let cache = read_cache(alloc, rig)?;
    if sector >= rig.sectors() {
        return None;
    }
    read_through(&cache, rig, sector, &mut bytes).ok()?;
    if bytes == [bytes[0]; 512] {
        Some(bytes[0])
    } else {
        None
    }
}

// Whether each sector is as before the deed, but for its own, which may be new.
fn is_old_or_new(alloc: Global, deed: Deed, rig: &mut MemRig) -> bool {
    for sector in 8..SECTORS {
        let old = if sector >= 10 && sector < 10 + deed.entries().min(3) {
            (sector - 9) as u8
        } else {
            0
        };
        let byte = shown(alloc, rig, sector);
        let is_new = deed.sector() == Some(sector) && byte == Some(9);
        if byte != Some(old) && !is_new {
            return false;
        }
    }
    true
}

#[test]
fn what_fails_or_is_cut_leaves_one_sector_old_or_new(rt: HostRuntime) -> Result<(), Fail> {
    let mut tried = 0u32;
    for deed in DEEDS {
        let (before, after) = calls(rt.alloc(), deed).ok_or("counting")?;
        assert!(rt; before < after, "{deed:?} makes a device call");
        for call in 1..=after - before {
            for (newer, cut) in [(false, false), (true, false), (false, true), (true, true)] {
                let trouble = Trouble { call, newer, cut };
                let left = troubled(rt.alloc(), deed, before, trouble).ok_or("opening")?;
                let mut crashed = left.crash(true, 0);
                assert!(rt;
                    is_old_or_new(rt.alloc(), deed, &mut crashed),
                    "{deed:?}, {trouble:?}"
                );
                tried = tried.saturating_add(1);
            }
        }
    }
    assert!(rt; tried > 100);
    Ok(())
}
