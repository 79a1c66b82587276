// Past the board.
ghost use Rattle.std.specs.Prelude.{◌≡◌, ◌<◌, [], get_or, OnOk};
ghost use Rattle.stable.specs.Counts.{HasCause};
ghost use Rattle.stable.specs.Moments.{LeavesOnly};
ghost use Rattle.rig.specs.Looked.{Stays};
ghost use Rattle.presto_cache.specs.Board.{PutsOnBoard};
ghost use Rattle.presto_cache.specs.Slots.{at, sector_of};
ghost use Rattle.presto_cache.specs.Cache.{slots_of, Knows};
ghost use Rattle.presto_unit.specs.Disk.{PutsOneMakingRoom};
ghost use Rattle.presto_unit.specs.Flushing.{AddsNone, IsDirtyAt};
ghost use Rattle.presto_unit.specs.Putting.{IsCleared, StandsOnDisk};

use presto_cache::Cache;
use rig::{Failed, Rig};

// Clears an entry. After a failure it is the youngest.
fn clear_or_put_last<R: Rig>(cache: &mut Cache, rig: &mut R, index: u32) -> Result<(), Failed>
    requires knows { Knows R.Rig rig.old cache.old }
    requires dirty { IsDirtyAt (slots_of cache.old) index }
    ensures knows { Knows R.Rig rig.new cache.new }
    ensures done { OnOk result (IsCleared R.Rig index rig.old rig.new cache.old cache.new) }
    ensures adds { AddsNone cache.old cache.new }
    ensures crash { let sector = sector_of (at (slots_of cache.old) index) in
        LeavesOnly R.moment R.left_since rig.old rig.new (PutsOnBoard (R.sizes rig.old) sector (get_or (R.contents rig.old).disk sector []) (R.contents rig.old)) }
    ensures cause { HasCause (R.faults rig.old) (R.faults rig.new) result }
    ensures stays { Stays R.Rig rig.old rig.new }
{
    match cache.drop_entry(rig, index) {
        Ok(()) => Ok(()),
        Err(Failed) => {
            cache.put_last(index);
            Err(Failed)
        }
    }
}

/// Writes a sector to the disk, and then clears its entry, if one stands. No entry is added.
pub fn put_through<R: Rig>(
    cache: &mut Cache,
    rig: &mut R,
    sector: u32,
    bytes: &[u8; 512],
) -> Result<(), Failed>
    requires knows { Knows R.Rig rig.old cache.old }
    requires sector { sector < (R.sizes rig.old).sectors }
    ensures knows { Knows R.Rig rig.new cache.new }
    ensures done { OnOk result (StandsOnDisk R.Rig sector bytes.now rig.old rig.new cache.new) }
    ensures adds { AddsNone cache.old cache.new }
    ensures crash { PutsOneMakingRoom R.Rig sector sector bytes.now rig.old rig.new }
    ensures cause { HasCause (R.faults rig.old) (R.faults rig.new) result }
    ensures stays { Stays R.Rig rig.old rig.new }
{
    rig.write(sector, bytes)?;
    match cache.find(sector) {
        Some(index) => clear_or_put_last(cache, rig, index),
        None => Ok(()),
    }
}
