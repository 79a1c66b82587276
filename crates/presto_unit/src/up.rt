// A put in UP.
ghost use Rattle.std.specs.Prelude.{◌≡◌, ◌≢◌, ◌<◌, ◌≤◌, ◌+◌, ℕ, None, set, length, OnOk};
ghost use Rattle.nvram_map.specs.Overlay.{overlay};
ghost use Rattle.stable.specs.Counts.{HasCause};
ghost use Rattle.stable.specs.States.{StaysOrFails};
ghost use Rattle.stable.specs.declared.state.State.TheVariants.{Up};
ghost use Rattle.rig.specs.Looked.{Stays, StaysOffDisk};
ghost use Rattle.presto_cache.specs.Slots.{NoDoubt, place_in};
ghost use Rattle.presto_cache.specs.Cache.{slots_of, entries_of, Knows};
ghost use Rattle.presto_states.specs.Track.{IsNoted};
ghost use Rattle.presto_unit.specs.Disk.{PutsOneMakingRoom};
ghost use Rattle.presto_unit.specs.Flushing.{oldest_sector};
ghost use Rattle.presto_unit.specs.Putting.{KeptUp, PutsByState};

use crate::flush::flush_oldest;
use crate::tend::failing;
use crate::through::put_through;
use presto_cache::{Cache, Keep};
use presto_states::Track;
use rig::{Failed, Rig};
use stable::Cause;

// Keeps a sector on a board that has room for it.
fn keep_now<R: Rig>(
    cache: &mut Cache,
    rig: &mut R,
    sector: u32,
    bytes: &[u8; 512],
) -> Result<(), Cause>
    requires knows { Knows R.Rig rig.old cache.old }
    requires sector { sector < (R.sizes rig.old).sectors }
    requires sure { NoDoubt (slots_of cache.old) }
    requires room { place_in (slots_of cache.old) sector ≢ None }
    ensures kept { KeptUp R.Rig sector bytes.now rig.old rig.new cache.old cache.new result }
    ensures crash { (other : ℕ) → PutsOneMakingRoom R.Rig sector other bytes.now rig.old rig.new }
    ensures stays { StaysOffDisk R.Rig rig.old rig.new }
{
    match cache.keep(rig, sector, bytes) {
        Keep::Kept => Ok(()),
        Keep::Failed => Err(Cause::Board),
        Keep::Full => unreachable!(),
    }
}

// Keeps a sector on a full board: the oldest entry goes to the disk before.
fn keep_in_full<R: Rig>(
    cache: &mut Cache,
    rig: &mut R,
    sector: u32,
    bytes: &[u8; 512],
) -> Result<(), Cause>
    requires full { place_in (slots_of cache.old) sector ≡ None }
    requires knows { Knows R.Rig rig.old cache.old }
    requires sector { sector < (R.sizes rig.old).sectors }
    requires board { 0 < (R.sizes rig.old).buffers }
    requires sure { NoDoubt (slots_of cache.old) }
    ensures kept { KeptUp R.Rig sector bytes.now rig.old rig.new cache.old cache.new result }
    ensures crash { PutsOneMakingRoom R.Rig sector (oldest_sector (entries_of cache.old)) bytes.now rig.old rig.new }
    ensures stays { Stays R.Rig rig.old rig.new }
{
    match cache.oldest() {
        None => unreachable!(),
        Some(index) => {
            flush_oldest(cache, rig, index)?;
            keep_now(cache, rig, sector, bytes)
        }
    }
}

/// Keeps a sector on the board. Where that is full, the oldest entry goes to the disk before. An error is the cause why the unit leaves UP.
pub fn keep_up<R: Rig>(
    cache: &mut Cache,
    rig: &mut R,
    sector: u32,
    bytes: &[u8; 512],
) -> Result<(), Cause>
    requires knows { Knows R.Rig rig.old cache.old }
    requires sector { sector < (R.sizes rig.old).sectors }
    requires board { 0 < (R.sizes rig.old).buffers }
    requires sure { NoDoubt (slots_of cache.old) }
    ensures kept { KeptUp R.Rig sector bytes.now rig.old rig.new cache.old cache.new result }
    ensures quiet { place_in (slots_of cache.old) sector ≢ None → R.disk_writes rig.new ≡ R.disk_writes rig.old }
    ensures crash { PutsOneMakingRoom R.Rig sector (oldest_sector (entries_of cache.old)) bytes.now rig.old rig.new }
    ensures stays { Stays R.Rig rig.old rig.new }
{
    match cache.keep(rig, sector, bytes) {
        Keep::Kept => Ok(()),
        Keep::Failed => Err(Cause::Board),
        Keep::Full => keep_in_full(cache, rig, sector, bytes),
    }
}

/// A put in UP. Where a device fails for the board or for room on it, the state is an error, and the sector goes past the board.
pub fn put_up<R: Rig>(
    track: &mut Track,
    cache: &mut Cache,
    rig: &mut R,
    sector: u32,
    bytes: &[u8; 512],
) -> Result<(), Failed>
    requires up { track.old.state ≡ Up }
    requires knows { Knows R.Rig rig.old cache.old }
    requires sector { sector < (R.sizes rig.old).sectors }
    requires board { 0 < (R.sizes rig.old).buffers }
    requires sure { NoDoubt (slots_of cache.old) }
    ensures knows { Knows R.Rig rig.new cache.new }
    ensures sure { track.new.state ≡ Up → NoDoubt (slots_of cache.new) }
    ensures state { StaysOrFails Up track.new.state (R.faults rig.old) (R.faults rig.new) }
    ensures changes { IsNoted Up track.new.state track.old.changes track.new.changes }
    ensures done { R.tells → OnOk result (overlay (R.contents rig.new) ≡ set (overlay (R.contents rig.old)) sector bytes.now) }
    ensures few { length (entries_of cache.new) ≤ length (entries_of cache.old) + 1 }
    ensures goes { PutsByState R.Rig sector bytes.now Up track.new.state cache.old cache.new rig.old rig.new result }
    ensures cause { HasCause (R.faults rig.old) (R.faults rig.new) result }
    ensures stays { Stays R.Rig rig.old rig.new }
{
    match keep_up(cache, rig, sector, bytes) {
        Ok(()) => Ok(()),
        Err(cause) => {
            track.happen(failing(cause));
            put_through(cache, rig, sector, bytes)
        }
    }
}
