// A call on names, once it is planned.
ghost use Rattle.std.specs.Prelude.{◌≡◌, ◌≤◌, ℕ, true, length};
ghost use Rattle.files_model.specs.declared.call.Call.{Call};
ghost use Rattle.files_model.specs.declared.credential.Cred.{Cred};
ghost use Rattle.files_model.specs.Step.{is_change};
ghost use Rattle.plan_name.specs.Planned.{IsPlannedCall};
ghost use Rattle.stable.specs.Puts.{AllPastSuperBlock, AllStand};
ghost use Rattle.stable.specs.States.{SomePuts};
ghost use Rattle.stable.specs.Store.{StaysOpenable};
ghost use Rattle.v7_make.specs.Chains.{FitStore};
ghost use Rattle.volume.specs.Applied.{HasForm};
ghost use Rattle.volume.specs.Carried.{Carries};

use crate::giving::{give_back, give_number};
use crate::outcome::Outcome;
use plan_name::Planned;
use stable::{Stable, run_plan};
use v7_sets::Sets;

/// Puts a plan, and gives what it frees back to the sets of what is free once all of it is put. After a fault nothing is given back.
pub fn carry_out<S: Stable>(store: &mut S, sets: &mut Sets, planned: Planned) -> Outcome
    requires stand { AllStand (S.sector_count store.old) planned.plan.puts }
    requires past { AllPastSuperBlock planned.plan.puts }
    requires fit { FitStore (S.sector_count store.old) sets.old.blocks sets.old.inodes }
    ensures carried { (call : Call) (cred : Cred) (now : ℕ) → is_change call ≡ true → HasForm call planned.reply → (S.tells → IsPlannedCall (S.image store.old) (call, cred) now sets.old planned) → Carries S.Stable store.old store.new sets.new call cred now result }
    ensures opens { StaysOpenable S.opens_since S.moment store.old store.new }
    ensures sectors { S.sector_count store.new ≡ S.sector_count store.old }
    ensures puts { SomePuts (length planned.plan.puts) (S.faults store.old) (S.faults store.new) (S.snapshot_of store.old) (S.snapshot_of store.new) }
    ensures later { S.faults store.old ≤ S.faults store.new }
{
    let Planned { plan, reply, freed } = planned;
    match run_plan(store, &plan) {
        Ok(()) => {
            give_back(&mut sets.blocks, freed.blocks.as_slice(), store.sectors());
            give_number(&mut sets.inodes, freed.inode);
            Outcome::Reply(reply)
        }
        Err(_) => Outcome::Io,
    }
}
