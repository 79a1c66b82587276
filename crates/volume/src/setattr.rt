// SETATTR (RFC 1094 2.2.3).
ghost use Rattle.std.specs.Prelude.{◌≡◌, false};
ghost use Rattle.files_model.specs.declared.call.Call.TheVariants.{Setattr};
ghost use Rattle.plan_file.specs.Set.{set_puts};
ghost use Rattle.stable.specs.Store.{StaysOpenable};
ghost use Rattle.volume.specs.Applied.{Applies, hurts};
ghost use Rattle.volume.specs.Costs.{CostsAtMost};
ghost use Rattle.volume.specs.Rests.{RestsOn};

use crate::giving::give_back;
use crate::outcome::Outcome;
use files_model::{Cred, FileId, Sattr};
use plan_file::{PlanFault, PlannedSet, plan_setattr};
use stable::{Stable, run_plan};
use std::alloc::Global;
use v7_sets::Sets;

/// Sets attributes of a file by one plan; blocks that a smaller size frees go back to the set once all of it is put.
pub fn setattr<S: Stable>(
    alloc: Global,
    store: &mut S,
    sets: &mut Sets,
    file: FileId,
    wanted: &Sattr,
    cred: &Cred,
    now: u32,
) -> Outcome
    requires rest { RestsOn S.Stable store.old false sets.old }
    ensures rest { RestsOn S.Stable store.new (hurts (Setattr file wanted.now) result) sets.new }
    ensures applied { Applies S.Stable store.old store.new false (hurts (Setattr file wanted.now) result) (Setattr file wanted.now) cred.now now result }
    ensures opens { StaysOpenable S.opens_since S.moment store.old store.new }
    ensures sectors { S.sector_count store.new ≡ S.sector_count store.old }
    ensures snapshot { CostsAtMost S.Stable store.old store.new false (set_puts wanted.now) (set_puts wanted.now) }
{
    let PlannedSet { plan, reply, freed } = match plan_setattr(
        alloc, store, file, wanted, cred, now,
    ) {
        Ok(planned) => planned,
        Err(PlanFault::Failed) => return Outcome::Io,
        Err(PlanFault::NoMemory) => return Outcome::NoMemory,
    };
    match run_plan(store, &plan) {
        Ok(()) => {
            give_back(&mut sets.blocks, freed.as_slice(), store.sectors());
            Outcome::Reply(reply)
        }
        Err(_) => Outcome::Io,
    }
}
