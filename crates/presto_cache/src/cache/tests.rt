// Tests over a board of four buffers in memory.
ghost use Rattle.std.specs.Prelude.{◌≡◌, true, false, IfSome};
ghost use Rattle.presto_cache.specs.Slots.{NoDoubt, in_doubt, at};
ghost use Rattle.presto_cache.specs.Cache.{Knows};

use crate::slot::Slot;
use crate::{Cache, Keep};
use nvram_map::{format, read_board};
use rig::{NoMemory, Rig};
use rig_mem::MemRig;
use std::alloc::Global;
use std::test::Fail;

// "VOLA00"
const VOLUME: [u8; 6] = [0x56, 0x4F, 0x4C, 0x41, 0x30, 0x30];

// Eight sectors of zeros, and a formatted board of four buffers, so of three entries. Formatting makes five device calls.
fn formatted(alloc: Global) -> Result<MemRig, NoMemory> {
    let mut rig = MemRig::new(alloc, 8, 4)?;
    if rig.buffers() == 0 || format(&mut rig, VOLUME).is_err() {
        return Err(NoMemory);
    }
    Ok(rig)
}

// The cache of a board that can be read. Reading makes five device calls.
fn opened<R: Rig>(alloc: Global, rig: &mut R) -> Option<Cache>
    ensures { IfSome result (Knows R.Rig rig.new) }
{
    let buffers = rig.buffers();
    // its contract says that the number of sectors has 32 bits
    let _sectors = rig.sectors();
    if buffers == 0 {
        return None;
    }
    let Ok(board) = read_board(alloc, rig, VOLUME) else {
        return None;
    };
    let Ok(cache) = Cache::new(alloc, &board, buffers) else {
        return None;
    };
    Some(cache)
}

fn is_sure(slot: &Slot) -> bool
    ensures { result ≡ true → in_doubt slot.now ≡ false }
{
    !matches!(slot, Slot::Doubt { .. })
}

fn are_sure(slots: &[Slot]) -> bool
    ensures { result ≡ true → NoDoubt slots.now }
{
    for slot in slots {
        if !is_sure(slot) {
            return false;
        }
    }
    true
}

// Keeps a sector of equal bytes, where no entry is in doubt.
fn keep_at<R: Rig>(cache: &mut Cache, rig: &mut R, sector: u32, byte: u8) -> Option<Keep>
    requires { Knows R.Rig rig.old cache.old }
    ensures { Knows R.Rig rig.new cache.new }
{
    if sector >= rig.sectors() || !are_sure(&cache.slots) {
        return None;
    }
    Some(cache.keep(rig, sector, &[byte; 512]))
}

// What the answer is to a put of sector 5, or of a second one.
fn put<R: Rig>(alloc: Global, rig: &mut R, first: u8, second: Option<u8>) -> Option<Keep> {
    let mut cache = opened(alloc, rig)?;
    let kept = keep_at(&mut cache, rig, 5, first)?;
    match second {
        Some(byte) => keep_at(&mut cache, rig, 5, byte),
        None => Some(kept),
    }
}

// The first byte of a sector, as the board completes the disk.
fn shown<R: Rig>(alloc: Global, rig: &mut R, sector: u32) -> Option<u8> {
    let mut bytes = [0; 512];
    if rig.buffers() == 0 || sector >= rig.sectors() {
        return None;
    }
    rig.read(sector, &mut bytes).ok()?;
    let board = read_board(alloc, rig, VOLUME).ok()?;
    for entry in board.entries.list() {
        if entry.sector == sector && entry.buffer < rig.buffers() {
            rig.load_buffer(entry.buffer, &mut bytes).ok()?;
        }
    }
    Some(bytes[0])
}

// The word of the first entry, and the first byte of the buffers 0 and 1.
fn stored<R: Rig>(rig: &mut R) -> Option<(u64, u8, u8)> {
    let mut first = [0; 512];
    let mut second = [0; 512];
    if rig.words() < 3 || rig.buffers() < 2 {
        return None;
    }
    let word = rig.load_word(2).ok()?;
    rig.load_buffer(0, &mut first).ok()?;
    rig.load_buffer(1, &mut second).ok()?;
    Some((word, first[0], second[0]))
}

#[test]
fn a_second_put_fills_another_buffer_and_replaces_the_word(rt: HostRuntime) -> Result<(), Fail> {
    let mut once = formatted(rt.alloc())?;
    assert_eq!(rt; put(rt.alloc(), &mut once, 1, None), Some(Keep::Kept));
    assert_eq!(rt; stored(&mut once), Some((0x8000000000000005, 1, 0)));
    let mut twice = formatted(rt.alloc())?;
    assert_eq!(rt; put(rt.alloc(), &mut twice, 1, Some(2)), Some(Keep::Kept));
    assert_eq!(rt; stored(&mut twice), Some((0x8000000100000005, 1, 2)));
    Ok(())
}

// The answer to the puts of sector 5, and what it is after a crash that the board survived.
fn put_and_crash(alloc: Global, rig: MemRig, second: Option<u8>) -> (Option<Keep>, Option<u8>) {
    let mut rig = rig;
    let kept = put(alloc, &mut rig, 1, second);
    let mut left = rig.crash(true, 0);
    (kept, shown(alloc, &mut left, 5))
}

// A device call by its number, what a failure or a cut leaves of it, and what sector 5 then is.
const CUT: [(u64, bool, Option<u8>, u8); 8] = [
    (11, false, None, 0),
    (11, true, None, 0),
    (12, false, None, 0),
    (12, true, None, 1),
    (13, false, Some(2), 1),
    (13, true, Some(2), 1),
    (14, false, Some(2), 1),
    (14, true, Some(2), 2),
];

#[test]
fn a_put_that_fails_or_is_cut_leaves_its_sector_old_or_new(rt: HostRuntime) -> Result<(), Fail> {
    for (number, newer, second, want) in CUT {
        let wanted = (Some(Keep::Failed), Some(want));
        let mut failing = formatted(rt.alloc())?;
        failing.fail(number, newer)?;
        assert!(rt;
            put_and_crash(rt.alloc(), failing, second) == wanted,
            "call {number} failed"
        );
        let mut stopped = formatted(rt.alloc())?;
        stopped.stop_at(number, newer);
        assert!(rt;
            put_and_crash(rt.alloc(), stopped, second) == wanted,
            "call {number} was cut"
        );
    }
    Ok(())
}

// Sectors 5 and 6 are put, the oldest entry is read and becomes the youngest, and the next is dropped: its sector and its
// buffer, the next entry, that of sector 6, and how many are dirty.
fn walked<R: Rig>(alloc: Global, rig: &mut R) -> Option<(u32, Option<u32>, u32, Option<u32>, u32)> {
    let mut cache = opened(alloc, rig)?;
    keep_at(&mut cache, rig, 5, 1)?;
    keep_at(&mut cache, rig, 6, 2)?;
    let first = cache.oldest()?;
    let sector = cache.sector_at(first);
    let buffer = cache.buffer_at(rig, first).ok()?;
    cache.put_last(first);
    let next = cache.oldest()?;
    cache.drop_entry(rig, next).ok()?;
    Some((sector, buffer, next, cache.find(6), cache.dirty()))
}

#[test]
fn an_entry_put_last_is_dropped_after_the_next(rt: HostRuntime) -> Result<(), Fail> {
    let mut rig = formatted(rt.alloc())?;
    assert_eq!(rt;
        walked(rt.alloc(), &mut rig),
        Some((5, Some(0), 1, None, 1))
    );
    Ok(())
}
