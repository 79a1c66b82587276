//! How a volume is stopped.
ghost use Rattle.std.specs.Prelude.{◌≡◌, []};
ghost use Rattle.volume.specs.Mounted.{store_of, is_hurt};
ghost use Rattle.volume.specs.Rests.{Rests};
ghost use Rattle.nfs_worker.specs.Account.{Grew};
ghost use Rattle.run_lines.specs.Overlays.{unit_store};
ghost use Rattle.server_volumes.specs.Ends.{Ends, EndsOn};
ghost use Rattle.server_volumes.specs.Stopped.{StopsAs};

use crate::opening::take_rig;
use presto_unit::Presto;
use rig::Rig;
use stable::{Command, State, Tended};
use volume::Volume;

/// How a volume was stopped.
#[derive(Clone, Copy, Debug, PartialEq, Eq)]
pub struct Stopped {
    /// Its store's state in the end.
    pub state: State,
    /// How many sectors are left dirty, which a device failed to write.
    pub dirty: u32,
    /// Whether a device failed while the free chain was written.
    pub unwritten: bool,
}

impl Default for Stopped {
    // nothing is left
    fn default() -> Stopped {
        Stopped {
            state: State::Down,
            dirty: 0,
            unwritten: false,
        }
    }
}

// Writes the free chain of a volume at that second, unless it is hurt, and commands its store Down. Something stays dirty only where a device failed.
fn go_down<S: Tended>(volume: Volume<S>, now: u32) -> (S, Stopped)
    requires rest { Rests S.Stable volume }
    ensures grows { Grew S.Stable (store_of volume) result.0 [] }
    ensures stops { StopsAs S.Stable (is_hurt volume) (store_of volume) result.0 result.1 }
    ensures polls { (S.snapshot_of result.0).polls ≡ (S.snapshot_of (store_of volume)).polls }
{
    let (store, written) = volume.stop(now);
    let mut store = store;
    let _answer = store.command(Command::Down);
    let shown = store.snapshot();
    let stopped = Stopped {
        state: shown.state,
        dirty: shown.dirty,
        unwritten: written.is_err(),
    };
    (store, stopped)
}

// Stops a volume at that second, whatever it did since it was opened.
fn stop_store<S: Tended>(volume: Volume<S>, now: u32) -> (S, Stopped)
    requires rest { Rests S.Stable volume }
    ensures { EndsOn S.Stable volume result.0 result.1 }
{
    go_down(volume, now)
}

/// Stops a volume at that second, and takes its rig.
pub fn stop_rig<R: Rig + Drop>(volume: Volume<Presto<R>>, now: u32) -> (R, Stopped)
    requires rest { Rests (unit_store R.Rig) volume }
    ensures { Ends R.Rig volume result.0 result.1 }
{
    let (unit, stopped) = stop_store(volume, now);
    (take_rig(unit), stopped)
}
