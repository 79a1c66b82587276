//! How all volumes are stopped, one after the other.
ghost use Rattle.std.specs.Prelude.{◌≡◌, ◌≤◌, length};
ghost use Rattle.std.specs.List.{AllByRecursion};
ghost use Rattle.volume.specs.Rests.{Rests};
ghost use Rattle.run_lines.specs.Overlays.{unit_store};
ghost use Rattle.server_volumes.specs.Ends.{EndsAll};

use crate::stopping::{Stopped, stop_rig};
use arrayvec::ArrayVec;
use presto_unit::Presto;
use rig::Host;
use volume::Volume;

/// Stops at most four volumes at that second, in their order, and gives their rigs back, by their numbers from 0 on. It takes no memory, and says nothing.
pub fn stop_all<H: Host>(
    host: &mut H,
    volumes: Vec<Volume<Presto<H::R>>>,
    now: u32,
) -> ArrayVec<Stopped, 4>
    requires few { length volumes.items ≤ 4 }
    requires out { length volumes.items ≤ H.rigs_out host.old }
    requires rest { AllByRecursion (Rests (unit_store H.R.Rig)) volumes.items }
    ensures { EndsAll H.Host.own H.Say H.R.Rig host.old host.new volumes.items result.items }
{
    let mut all = ArrayVec::new();
    for volume in volumes {
        let (rig, stopped) = stop_rig(volume, now);
        host.give_back_rig(all.len() as u32, rig);
        all.push(stopped);
    }
    all
}
