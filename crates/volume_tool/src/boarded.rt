//! A unit that has a board, as a store.
ghost use Rattle.std.specs.Prelude.{◌<◌};
ghost use Rattle.presto_unit.specs.Parts.{rig_of};

use presto_unit::Presto;
use rig::{Failed, Rig};
use stable::Stable;

/// A unit on a rig that has a board: no call on a rig takes that away.
#[derive(Drop)]
pub struct Boarded<R: Rig + Drop> {
    pub unit: Presto<R>,
    pub ghost board: { 0 < (R.sizes (rig_of unit)).buffers },
}

impl<R: Rig + Drop> Stable for Boarded<R> {
    ghost use Rattle.presto_unit.specs.Images.{overlays_since};
    ghost use Rattle.presto_unit.specs.Laws.{overlay_now, overlay_only, overlay_wider, overlay_told};
    ghost use Rattle.presto_unit.specs.Opening.{opens_since};
    ghost use Rattle.presto_unit.specs.Parts.{cache_of, state_of, tally_of};
    ghost use Rattle.presto_unit.specs.Shown.{shown};
    ghost use Rattle.nvram_map.specs.Overlay.{overlay};

    ghost tells = { R.tells };

    ghost image = { λ s. overlay (R.contents (rig_of s.unit)) };

    ghost moment = { λ s. R.moment (rig_of s.unit) };

    ghost left_since = { λ s. overlays_since R.sizes R.left_since (rig_of s.unit) };

    ghost opens_since = { λ s. opens_since R.sizes R.left_since (rig_of s.unit) };

    ghost sector_count = { λ s. (R.sizes (rig_of s.unit)).sectors };

    ghost faults = { λ s. R.faults (rig_of s.unit) };

    ghost snapshot_of = { λ s. shown (state_of s.unit) (cache_of s.unit) (tally_of s.unit) };

    ghost clocked = { record {
      now = λ s t tells le. overlay_now R.Rig.own R.clocked R.shape R.kept_told R.board (rig_of s.unit) (cache_of s.unit) s.unit.knows t tells le;
      only = λ s i left. overlay_only R.Rig.own R.clocked (rig_of s.unit) i left;
      wider = λ s t u i le left. overlay_wider R.Rig.own R.clocked (rig_of s.unit) t u i le left;
      told = λ s t i left. overlay_told R.Rig.own R.clocked (rig_of s.unit) t i left;
    } };

    ghost shape = { λ s t i left. left.2.whole };

    ghost opens_later = { λ s t u le opens d left. opens d (R.clocked.wider (rig_of s.unit) t u d le left) };

    ghost counted = { λ s. (tally_of s.unit).fits };

    ghost down = { λ s is. s.unit.clean is };

    fn sectors(&self) -> u32 {
        self.unit.sectors()
    }

    fn get(&mut self, sector: u32, into: &mut [u8; 512]) -> Result<(), Failed> {
        self.unit.get(sector, into)
    }

    fn put(&mut self, sector: u32, bytes: &[u8; 512]) -> Result<(), Failed> {
        self.unit.put(sector, bytes)
    }
}
