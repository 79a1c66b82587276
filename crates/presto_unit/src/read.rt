// Reading a sector, from the board where it stands there.
ghost use Rattle.std.specs.Prelude.{◌≡◌, ◌<◌, [], get_or, OnOk};
ghost use Rattle.stable.specs.Counts.{HasCause};
ghost use Rattle.rig.specs.Looked.{Looked};
ghost use Rattle.nvram_map.specs.Overlay.{overlay};
ghost use Rattle.presto_cache.specs.Slots.{at, sector_of};
ghost use Rattle.presto_cache.specs.Cache.{slots_of, Knows};
ghost use Rattle.presto_unit.specs.Flushing.{IsDirtyAt};

use presto_cache::Cache;
use rig::{Failed, Rig};

// Reads the sector of an entry.
fn read_entry<R: Rig>(
    cache: &Cache,
    rig: &mut R,
    index: u32,
    sector: u32,
    into: &mut [u8; 512],
) -> Result<(), Failed>
    requires knows { Knows R.Rig rig.old cache.now }
    requires dirty { IsDirtyAt (slots_of cache.now) index }
    requires sector { sector_of (at (slots_of cache.now) index) ≡ sector }
    ensures done { R.tells → OnOk result (into.new ≡ get_or (overlay (R.contents rig.old)) sector []) }
    ensures cause { HasCause (R.faults rig.old) (R.faults rig.new) result }
    ensures looked { Looked R.Rig rig.old rig.new }
{
    let buffer = cache.buffer_at(rig, index)?;
    match buffer {
        Some(buffer) => rig.load_buffer(buffer, into),
        None => rig.read(sector, into),
    }
}

/// Reads a sector of the overlay: from the buffer of its entry where one stands, else from the disk.
pub fn read_through<R: Rig>(
    cache: &Cache,
    rig: &mut R,
    sector: u32,
    into: &mut [u8; 512],
) -> Result<(), Failed>
    requires knows { Knows R.Rig rig.old cache.now }
    requires sector { sector < (R.sizes rig.old).sectors }
    ensures done { R.tells → OnOk result (into.new ≡ get_or (overlay (R.contents rig.old)) sector []) }
    ensures cause { HasCause (R.faults rig.old) (R.faults rig.new) result }
    ensures looked { Looked R.Rig rig.old rig.new }
{
    match cache.find(sector) {
        Some(index) => read_entry(cache, rig, index, sector, into),
        None => rig.read(sector, into),
    }
}
