// A batch of writes on a volume with nothing to mend.
ghost use Rattle.std.specs.Prelude.{◌≡◌, ◌≤◌, false, length};
ghost use Rattle.files_model.specs.Batch.{cost};
ghost use Rattle.plan_file.specs.Planned.{plan_puts};
ghost use Rattle.stable.specs.Store.{StaysOpenable};
ghost use Rattle.v7_map.specs.View.{view};
ghost use Rattle.volume.specs.Committed.{Commits, hurts_so};
ghost use Rattle.volume.specs.Costs.{CostsAtMost};
ghost use Rattle.volume.specs.Rests.{RestsOn};

use crate::outcome::Commit;
use files_model::{FileId, WriteItem};
use plan_file::{PlanFault, Planned, plan_writes};
use stable::{Stable, run_plan};
use std::alloc::Global;
use v7_sets::Sets;

/// Whether a volume is hurt after a batch that ended so.
pub fn is_hurt_after(outcome: &Commit) -> bool
    ensures { result ≡ hurts_so outcome.now }
{
    match outcome {
        Commit::Io => true,
        Commit::Replies(_) => false,
        Commit::NoMemory => false,
    }
}

/// Writes a batch to one file, all at this second (RFC 1094 2.2.9): one plan, each touched sector once. All memory is taken before the first put.
pub fn make_batch<S: Stable>(
    alloc: Global,
    store: &mut S,
    sets: &mut Sets,
    file: FileId,
    batch: &[WriteItem],
    now: u32,
) -> Commit
    requires few { length batch.now ≤ 16 }
    requires rest { RestsOn S.Stable store.old false sets.old }
    ensures rest { RestsOn S.Stable store.new (hurts_so result) sets.new }
    ensures committed { Commits S.Stable store.old store.new false (hurts_so result) file batch.now now result }
    ensures opens { StaysOpenable S.opens_since S.moment store.old store.new }
    ensures sectors { S.sector_count store.new ≡ S.sector_count store.old }
    ensures snapshot { CostsAtMost S.Stable store.old store.new false plan_puts (cost (view (S.image store.old)) file batch.now now) }
{
    let Planned { plan, replies } = match plan_writes(alloc, store, sets, file, batch, now) {
        Ok(planned) => planned,
        Err(PlanFault::Failed) => return Commit::Io,
        Err(PlanFault::NoMemory) => return Commit::NoMemory,
    };
    match run_plan(store, &plan) {
        Ok(()) => Commit::Replies(replies),
        Err(_) => Commit::Io,
    }
}
