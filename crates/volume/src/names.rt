// The calls that make, take away and change names (RFC 1094 2.2.10 to 2.2.16).
ghost use Rattle.std.specs.Prelude.{◌≡◌, true, false, IfOk, IsErrOf};
ghost use Rattle.plan_file.specs.declared.fault.PlanFault.TheVariants as fault;
ghost use Rattle.plan_name.specs.Planned.{IsPlannedCall, TakesOnly};
ghost use Rattle.stable.specs.Counts.{Rose};
ghost use Rattle.stable.specs.Looked.{Looked};
ghost use Rattle.stable.specs.Store.{StaysOpenable};
ghost use Rattle.v7_map.specs.Frame.{frame};
ghost use Rattle.v7_map.specs.View.{view};
ghost use Rattle.v7_map.specs.Weak.{IsStrong};
ghost use Rattle.v7_sets.specs.Sets.{AreSetsOf};
ghost use Rattle.volume.specs.Applied.{Applies, hurts};
ghost use Rattle.volume.specs.Costs.{CostsAtMost, call_cost, most_puts};
ghost use Rattle.volume.specs.Names.{CanBeDone, changes_names};
ghost use Rattle.volume.specs.Rests.{RestsOn};

use crate::carrying::carry_out;
use crate::outcome::Outcome;
use files_model::{Call, Cred};
use plan_file::PlanFault;
use plan_link::plan_link;
use plan_mkdir::plan_mkdir;
use plan_name::{Planned, plan_create, plan_remove};
use plan_rename::plan_rename;
use plan_rmdir::plan_rmdir;
use plan_symlink::plan_symlink;
use stable::Stable;
use std::alloc::Global;
use v7_sets::Sets;

/// Plans a call on names. What it takes leaves the sets of what is free, which are as they were after a fault; nothing is put.
fn plan_names<S: Stable>(
    alloc: Global,
    store: &mut S,
    sets: &mut Sets,
    call: &Call,
    cred: &Cred,
    now: u32,
) -> Result<Planned, PlanFault>
    requires named { changes_names call.now ≡ true }
    ensures planned { S.tells → IsStrong (frame (S.image store.old)) → AreSetsOf (S.image store.old) sets.old.blocks sets.old.inodes → IfOk result (λ r. IsPlannedCall (S.image store.old) (call.now, cred.now) now sets.new r) }
    ensures can { IfOk result (CanBeDone (S.sector_count store.old) call.now) }
    ensures takes { TakesOnly sets.old sets.new result }
    ensures cause { IsErrOf result fault.Failed → Rose (S.faults store.old) (S.faults store.new) }
    ensures looked { Looked S.Stable store.old store.new }
{
    match call {
        Call::Create { dir, name, set } => {
            plan_create(alloc, store, sets, *dir, name, set, cred, now)
        }
        Call::Remove { dir, name } => plan_remove(alloc, store, *dir, name, cred, now),
        Call::Rmdir { dir, name } => plan_rmdir(alloc, store, *dir, name, cred, now),
        Call::Link { file, dir, name } => plan_link(
            alloc, store, sets, *file, *dir, name, cred, now,
        ),
        Call::Symlink {
            dir,
            name,
            text,
            set,
        } => plan_symlink(alloc, store, sets, *dir, name, text, set, cred, now),
        Call::Rename {
            from,
            name,
            to,
            new_name,
        } => plan_rename(alloc, store, sets, *from, name, *to, new_name, cred, now),
        Call::Mkdir { dir, name, set } => plan_mkdir(
            alloc, store, sets, *dir, name, set, cred, now,
        ),
        _ => unreachable!(),
    }
}

/// Makes a call on names, by one plan. What it takes leaves the sets of what is free, and what it frees comes back to them once all of its plan is put.
pub fn change_names<S: Stable>(
    alloc: Global,
    store: &mut S,
    sets: &mut Sets,
    call: &Call,
    cred: &Cred,
    now: u32,
) -> Outcome
    requires named { changes_names call.now ≡ true }
    requires rest { RestsOn S.Stable store.old false sets.old }
    ensures rest { RestsOn S.Stable store.new (hurts call.now result) sets.new }
    ensures applied { Applies S.Stable store.old store.new false (hurts call.now result) call.now cred.now now result }
    ensures opens { StaysOpenable S.opens_since S.moment store.old store.new }
    ensures sectors { S.sector_count store.new ≡ S.sector_count store.old }
    ensures snapshot { CostsAtMost S.Stable store.old store.new false (most_puts call.now) (call_cost (view (S.image store.old)) call.now cred.now now) }
{
    match plan_names(alloc, store, sets, call, cred, now) {
        Ok(planned) => carry_out(store, sets, planned),
        Err(PlanFault::Failed) => Outcome::Io,
        Err(PlanFault::NoMemory) => Outcome::NoMemory,
    }
}
