//! A worker, turn after turn.
ghost use Rattle.std.specs.Prelude.{◌≡◌, ◌+◌, ◌<◌, ◌^◌, length};
ghost use Rattle.std.specs.List.{AllByRecursion};
ghost use Rattle.nfs_worker.specs.Turns.{Worked};
ghost use Rattle.nfs_worker.specs.Volumes.{AreOpen};
ghost use Rattle.volume.specs.Rests.{Rests};

use crate::cells::Cells;
use crate::pass::ServerPass;
use crate::taking::turn;
use crate::turning::{Ended, Turn};
use rig::{Clock, Link, Pauser, Post};
use stable::Tended;

/// Takes turns, at most so many, until the link has ended or the server is told to end.
pub fn work<S: Tended, L: Link, C: Clock, P: Pauser>(
    cells: &mut Cells<S>,
    post: &mut Post<L, C, P>,
    pass: &mut ServerPass,
    turns: u64,
) -> Ended
    requires few { pass.old.numbers.received + turns < 2 ^ 48 }
    requires rest { AllByRecursion (Rests S.Stable) cells.old.volumes.items }
    requires desk { AreOpen (length cells.old.volumes.items) cells.old.desk }
    ensures { Worked S.Stable L.Link C.Clock cells.old.volumes.items cells.new.volumes.items cells.old.desk cells.new.desk post.old.link post.new.link post.old.clock post.new.clock pass.old pass.new result turns }
{
    for count in 0..turns {
        match turn(cells, post, pass) {
            Turn::Closed => return Ended::Closed,
            Turn::Halted => return Ended::Halted,
            _ => {}
        }
    }
    Ended::Spent
}
