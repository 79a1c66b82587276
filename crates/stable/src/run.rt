//! A plan is put on a store.
ghost use Rattle.std.specs.Prelude.{◌≡◌, ◌+◌, ◌%◌, ◌^◌, length, OnOk};
ghost use Rattle.stable.specs.Counts.{HasCause};
ghost use Rattle.stable.specs.Moments.{LeavesOnly};
ghost use Rattle.stable.specs.Puts.{put_all, AfterSome, AllStand, AllPastSuperBlock};
ghost use Rattle.stable.specs.States.{SomePuts};
ghost use Rattle.stable.specs.Store.{StaysOpenable};

use crate::{Failed, Plan, Stable};

// Puts sectors in order, up to the first failure.
fn put_each<S: Stable>(store: &mut S, puts: &[(u32, [u8; 512])]) -> Result<(), Failed>
    requires { AllStand (S.sector_count store.old) puts.now }
    ensures done { S.tells → OnOk result (S.image store.new ≡ put_all puts.now (S.image store.old)) }
    ensures crash { LeavesOnly S.moment S.left_since store.old store.new (AfterSome puts.now (S.image store.old)) }
    ensures opens { AllPastSuperBlock puts.now → StaysOpenable S.opens_since S.moment store.old store.new }
    ensures cause { HasCause (S.faults store.old) (S.faults store.new) result }
    ensures sectors { S.sector_count store.new ≡ S.sector_count store.old }
    ensures snapshot { SomePuts (length puts.now) (S.faults store.old) (S.faults store.new) (S.snapshot_of store.old) (S.snapshot_of store.new) }
    ensures counted { OnOk result ((S.snapshot_of store.new).puts ≡ ((S.snapshot_of store.old).puts + length puts.now) % 2 ^ 64) }
{
    for put in puts {
        store.put(put.0, &put.1)?;
    }
    Ok(())
}

/// Puts a plan's sectors in order, up to the first failure. A crash at any moment leaves the first of them put, and no others: the next sector is old or new.
pub fn run_plan<S: Stable>(store: &mut S, plan: &Plan) -> Result<(), Failed>
    requires { AllStand (S.sector_count store.old) plan.now.puts }
    ensures done { S.tells → OnOk result (S.image store.new ≡ put_all plan.now.puts (S.image store.old)) }
    ensures crash { LeavesOnly S.moment S.left_since store.old store.new (AfterSome plan.now.puts (S.image store.old)) }
    ensures opens { AllPastSuperBlock plan.now.puts → StaysOpenable S.opens_since S.moment store.old store.new }
    ensures cause { HasCause (S.faults store.old) (S.faults store.new) result }
    ensures sectors { S.sector_count store.new ≡ S.sector_count store.old }
    ensures snapshot { SomePuts (length plan.now.puts) (S.faults store.old) (S.faults store.new) (S.snapshot_of store.old) (S.snapshot_of store.new) }
    ensures counted { OnOk result ((S.snapshot_of store.new).puts ≡ ((S.snapshot_of store.old).puts + length plan.now.puts) % 2 ^ 64) }
{
    put_each(store, plan.puts())
}
