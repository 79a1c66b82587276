//! A volume is inspected.
ghost use Rattle.std.specs.Prelude.{◌≡◌};
ghost use Rattle.stable.specs.Looked.{Looked};
ghost use Rattle.stable.specs.Store.{Same};
ghost use Rattle.volume_tool.specs.Checked.{ChecksAs, ChecksStore};
ghost use Rattle.volume_tool.specs.Kept.{Keeps};
ghost use Rattle.volume_tool.specs.Told.{Runs};

use crate::lines::seen_line;
use crate::telling::answer;
use presto_recover::open;
use rig::{Host, Rig};
use run_lines::{refuse, unit_refusal, volume_refusal};
use stable::Stable;
use std::alloc::Global;
use v7_inspect::inspect;

// Inspects the volume on a store.
fn check_store<H: Host, S: Stable>(alloc: Global, host: &mut H, store: &mut S) -> u8
    ensures looked { Looked S.Stable store.old store.new }
    ensures runs { Runs H.Host.own H.Say (ChecksStore S.Stable store.old store.new) host.old host.new result }
{
    match inspect(alloc, store) {
        Err(fault) => refuse(host, volume_refusal(0, fault)),
        Ok(seen) => answer(host, seen_line(&seen).as_str()),
    }
}

/// Opens disk and board of a rig, and inspects the volume on them. What they stand for together is kept at each moment.
pub fn check_rig<H: Host, R: Rig + Drop>(alloc: Global, host: &mut H, rig: R) -> (u8, R)
    ensures kept { Keeps R.Rig Same rig result.1 }
    ensures runs { Runs H.Host.own H.Say (ChecksAs R.Rig rig result.1) host.old host.new result.0 }
{
    match open(alloc, rig, false) {
        Err((fault, rig)) => (refuse(host, unit_refusal(0, fault)), rig),
        Ok(opened) => {
            let mut unit = opened.presto;
            let status = check_store(alloc, host, &mut unit);
            let rig = unit.into_rig();
            // its contract says that the number of sectors has 32 bits
            let _sectors = rig.sectors();
            (status, rig)
        }
    }
}
