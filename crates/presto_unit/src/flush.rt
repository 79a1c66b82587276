// Entries are flushed: written to the disk, and then cleared.
ghost use Rattle.std.specs.Prelude.{◌≡◌, ◌≤◌, None, Some, IsSome, IfSome, length, OnOk};
ghost use Rattle.rig.specs.Looked.{Stays};
ghost use Rattle.presto_cache.specs.Slots.{at, sector_of};
ghost use Rattle.presto_cache.specs.Entries.{oldest_in};
ghost use Rattle.presto_cache.specs.Cache.{slots_of, entries_of, Knows};
ghost use Rattle.presto_unit.specs.Disk.{FlushesAll, FlushesOne, Holds, IsOnDisk};
ghost use Rattle.presto_unit.specs.Flushing.{AddsNone, HasDevice, IsDeviceCause, AreFlushed, IsDirtyAt, IsTried, IsTriedNext, IsWrittenOut};

use presto_cache::Cache;
use rig::{Failed, Rig};
use stable::Cause;

// Writes a buffer to the sector of its entry.
fn write_out<R: Rig>(
    cache: &Cache,
    rig: &mut R,
    index: u32,
    sector: u32,
    buffer: u32,
) -> Result<(), Cause>
    requires knows { Knows R.Rig rig.old cache.now }
    requires dirty { IsDirtyAt (slots_of cache.now) index }
    requires sector { sector_of (at (slots_of cache.now) index) ≡ sector }
    requires holds { Holds R.Rig rig.old index sector buffer }
    ensures knows { Knows R.Rig rig.new cache.now }
    ensures written { R.tells → OnOk result (IsOnDisk sector (R.contents rig.new)) }
    ensures crash { FlushesOne R.Rig sector rig.old rig.new }
    ensures device { HasDevice (R.faults rig.old) (R.faults rig.new) result }
    ensures stays { Stays R.Rig rig.old rig.new }
{
    let mut bytes = [0; 512];
    match rig.load_buffer(buffer, &mut bytes) {
        Err(Failed) => Err(Cause::Board),
        Ok(()) => match rig.write(sector, &bytes) {
            Err(Failed) => Err(Cause::Disk),
            Ok(()) => Ok(()),
        },
    }
}

// Clears an entry whose sector stands on the disk.
fn clear_written<R: Rig>(cache: &mut Cache, rig: &mut R, index: u32) -> Result<(), Cause>
    requires knows { Knows R.Rig rig.old cache.old }
    requires dirty { IsDirtyAt (slots_of cache.old) index }
    requires written { R.tells → IsOnDisk (sector_of (at (slots_of cache.old) index)) (R.contents rig.old) }
    ensures knows { Knows R.Rig rig.new cache.new }
    ensures out { IsWrittenOut index result cache.old cache.new }
    ensures crash { FlushesOne R.Rig (sector_of (at (slots_of cache.old) index)) rig.old rig.new }
    ensures device { HasDevice (R.faults rig.old) (R.faults rig.new) result }
    ensures stays { Stays R.Rig rig.old rig.new }
{
    match cache.drop_entry(rig, index) {
        Ok(()) => Ok(()),
        Err(Failed) => Err(Cause::Board),
    }
}

// Writes an entry to the disk, and then clears it. After a failure it keeps its place.
fn flush_entry<R: Rig>(cache: &mut Cache, rig: &mut R, index: u32) -> Result<(), Cause>
    requires knows { Knows R.Rig rig.old cache.old }
    requires dirty { IsDirtyAt (slots_of cache.old) index }
    ensures knows { Knows R.Rig rig.new cache.new }
    ensures out { IsWrittenOut index result cache.old cache.new }
    ensures crash { FlushesOne R.Rig (sector_of (at (slots_of cache.old) index)) rig.old rig.new }
    ensures device { HasDevice (R.faults rig.old) (R.faults rig.new) result }
    ensures stays { Stays R.Rig rig.old rig.new }
{
    let sector = cache.sector_at(index);
    match cache.buffer_at(rig, index) {
        Err(Failed) => Err(Cause::Board),
        Ok(None) => clear_written(cache, rig, index),
        Ok(Some(buffer)) => match write_out(cache, rig, index, sector, buffer) {
            Err(cause) => Err(cause),
            Ok(()) => clear_written(cache, rig, index),
        },
    }
}

/// Writes the oldest entry to the disk, and then clears it. After a failure it is the youngest.
pub fn flush_oldest<R: Rig>(cache: &mut Cache, rig: &mut R, index: u32) -> Result<(), Cause>
    requires knows { Knows R.Rig rig.old cache.old }
    requires oldest { oldest_in (entries_of cache.old) ≡ Some index }
    requires dirty { IsDirtyAt (slots_of cache.old) index }
    ensures knows { Knows R.Rig rig.new cache.new }
    ensures tried { IsTried index result cache.old cache.new }
    ensures crash { FlushesOne R.Rig (sector_of (at (slots_of cache.old) index)) rig.old rig.new }
    ensures device { HasDevice (R.faults rig.old) (R.faults rig.new) result }
    ensures stays { Stays R.Rig rig.old rig.new }
{
    match flush_entry(cache, rig, index) {
        Ok(()) => Ok(()),
        Err(cause) => {
            cache.put_last(index);
            Err(cause)
        }
    }
}

// Tries the oldest entry. The answer is the first failure, this one or that of before.
fn flush_next<R: Rig>(cache: &mut Cache, rig: &mut R, first: Option<Cause>) -> Option<Cause>
    requires knows { Knows R.Rig rig.old cache.old }
    requires some { 1 ≤ length (entries_of cache.old) }
    requires device { IfSome first IsDeviceCause }
    ensures knows { Knows R.Rig rig.new cache.new }
    ensures tried { IsTriedNext first result (R.faults rig.old) (R.faults rig.new) (entries_of cache.old) (entries_of cache.new) }
    ensures adds { AddsNone cache.old cache.new }
    ensures crash { FlushesAll R.Rig rig.old rig.new }
    ensures stays { Stays R.Rig rig.old rig.new }
{
    match cache.oldest() {
        None => unreachable!(),
        Some(index) => match flush_oldest(cache, rig, index) {
            Ok(()) => first,
            Err(cause) => first_of(first, cause),
        },
    }
}

// The first failure of two.
fn first_of(first: Option<Cause>, cause: Cause) -> Option<Cause>
    requires device { IsDeviceCause cause }
    requires first { IfSome first IsDeviceCause }
    ensures some { IsSome result }
    ensures device { IfSome result IsDeviceCause }
{
    match first {
        None => Some(cause),
        Some(was) => Some(was),
    }
}

/// Tries each entry of a board once, the oldest first, and answers the cause of the first failure. An entry that failed is left dirty, and no more are
/// left than devices failed. At each moment the overlay is kept.
pub fn flush_all<R: Rig>(cache: &mut Cache, rig: &mut R) -> Option<Cause>
    requires { Knows R.Rig rig.old cache.old }
    ensures knows { Knows R.Rig rig.new cache.new }
    ensures flushed { AreFlushed result (R.faults rig.old) (R.faults rig.new) (entries_of cache.old) (entries_of cache.new) }
    ensures adds { AddsNone cache.old cache.new }
    ensures crash { FlushesAll R.Rig rig.old rig.new }
    ensures stays { Stays R.Rig rig.old rig.new }
{
    let mut first = None;
    for _done in 0..cache.dirty() {
        first = flush_next(cache, rig, first);
    }
    first
}
