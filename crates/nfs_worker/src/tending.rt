//! What a worker does for the store of a volume before it takes an event.
ghost use Rattle.std.specs.List.{AllByRecursion};
ghost use Rattle.stable.specs.Looked.{KeepsImage};
ghost use Rattle.nfs_worker.specs.Tending.{IsPolledAt, IsTried};
ghost use Rattle.nfs_worker.specs.Turns.{Tends};
ghost use Rattle.nfs_worker.specs.Volumes.{Pairwise};
ghost use Rattle.volume.specs.Mounted.{store_of, SameButStore};
ghost use Rattle.volume.specs.Rests.{Rests};

use stable::{State, Tended};
use volume::Volume;

// Polls the battery at a new second.
fn poll_at<S: Tended>(volume: &mut Volume<S>, is_new_second: bool)
    requires rest { Rests S.Stable volume.old }
    ensures rest { Rests S.Stable volume.new }
    ensures kept { SameButStore volume.old volume.new }
    ensures keeps { KeepsImage S.Stable (store_of volume.old) (store_of volume.new) }
    ensures polled { IsPolledAt is_new_second (S.snapshot_of (store_of volume.old)) (S.snapshot_of (store_of volume.new)) }
{
    if is_new_second {
        let _battery = volume.poll();
    }
}

// Tries the oldest dirty sector where the store is in error.
fn try_in_error<S: Tended>(volume: &mut Volume<S>)
    requires rest { Rests S.Stable volume.old }
    ensures rest { Rests S.Stable volume.new }
    ensures kept { SameButStore volume.old volume.new }
    ensures keeps { KeepsImage S.Stable (store_of volume.old) (store_of volume.new) }
    ensures tried { IsTried (S.snapshot_of (store_of volume.old)) (S.snapshot_of (store_of volume.new)) }
{
    if let State::Error(_) = volume.snapshot().state {
        let _answer = volume.flush_one();
    }
}

// Polls the battery at a new second, and then tries the oldest dirty sector where the store is in error. No sector changes by it.
fn tend<S: Tended>(volume: &mut Volume<S>, is_new_second: bool)
    requires rest { Rests S.Stable volume.old }
    ensures { Tends S.Stable is_new_second volume.old volume.new }
{
    poll_at(volume, is_new_second);
    try_in_error(volume);
}

/// Tends each volume: polls its battery at a new second, and then tries its oldest dirty sector where its store is in error. No sector changes by it.
pub fn tend_all<S: Tended>(volumes: &mut Vec<Volume<S>>, is_new_second: bool)
    requires rest { AllByRecursion (Rests S.Stable) volumes.old.items }
    ensures { Pairwise (Tends S.Stable is_new_second) volumes.old.items volumes.new.items }
{
    for at in 0..volumes.len() {
        tend(&mut volumes[at], is_new_second);
    }
}
