//! Single turns.
ghost use Rattle.std.specs.Prelude.{length};
ghost use Rattle.std.specs.List.{AllByRecursion};
ghost use Rattle.nfs_worker.specs.Volumes.{AreOpen};
ghost use Rattle.volume.specs.Rests.{Rests};

use nfs_worker::taking::turn;
use nfs_worker::{Cells, ServerPass, Turn};
use presto_unit::Presto;
use rig::{Link, Post};
use rig_mem::{MemClock, MemRig, StillPauser};
use stable::Stable;

/// Takes a turn. Whether it is this one.
pub fn is_next<L: Link>(
    cells: &mut Cells<Presto<MemRig>>,
    post: &mut Post<L, MemClock, StillPauser>,
    pass: &mut ServerPass,
    wanted: Turn,
) -> bool
    requires rest { AllByRecursion (Rests ⟦<Presto<MemRig> as Stable>⟧) cells.old.volumes.items }
    requires desk { AreOpen (length cells.old.volumes.items) cells.old.desk }
    ensures rest { AllByRecursion (Rests ⟦<Presto<MemRig> as Stable>⟧) cells.new.volumes.items }
    ensures desk { AreOpen (length cells.new.volumes.items) cells.new.desk }
{
    pass.numbers.received < 6 && turn(cells, post, pass) == wanted
}
