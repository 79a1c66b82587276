//! A volume is recovered.
ghost use Rattle.std.specs.Prelude.{◌≡◌, OnOk, OnErr};
ghost use Rattle.stable.specs.Counts.{HasCause, Rose};
ghost use Rattle.stable.specs.Looked.{KeepsImage};
ghost use Rattle.stable.specs.declared.state.State.TheVariants.{Down};
ghost use Rattle.v7_make.specs.Chains.{AreIdle, FitStore, IsChained};
ghost use Rattle.volume_tool.specs.Kept.{Keeps, KeepsStore, SameFiles};
ghost use Rattle.volume_tool.specs.Recovered.{RecoversAs, RecoversStore, StopsStore};
ghost use Rattle.volume_tool.specs.Told.{Runs};

use crate::lines::recovered_line;
use crate::telling::answer;
use presto_recover::open;
use rig::{Host, Rig};
use run_lines::{device_failed, refuse, unit_refusal, volume_refusal};
use stable::{Answer, Command, Failed, Tended};
use std::alloc::Global;
use v7_make::write_chain;
use v7_repair::{Mended, repair};
use v7_sets::Sets;

// Commands a store Down.
fn go_down<S: Tended>(store: &mut S) -> Result<(), Failed>
    ensures down { OnOk result ((S.snapshot_of store.new).state ≡ Down) }
    ensures cause { HasCause (S.faults store.old) (S.faults store.new) result }
    ensures keeps { KeepsImage S.Stable store.old store.new }
{
    match store.command(Command::Down) {
        Answer::Done => Ok(()),
        _ => Err(Failed),
    }
}

// Stops a volume cleanly at that second: writes its free chain, and commands the store Down.
fn stop_store<S: Tended>(store: &mut S, sets: &Sets, second: u32) -> Result<(), Failed>
    requires fit { FitStore (S.sector_count store.old) sets.now.blocks sets.now.inodes }
    requires idle { S.tells → AreIdle (S.image store.old) sets.now.blocks }
    ensures done { S.tells → OnOk result (IsChained (S.image store.old) (S.image store.new) sets.now.blocks sets.now.inodes second) }
    ensures down { OnOk result ((S.snapshot_of store.new).state ≡ Down) }
    ensures cause { HasCause (S.faults store.old) (S.faults store.new) result }
    ensures keeps { KeepsStore S.Stable SameFiles store.old store.new }
{
    write_chain(store, &sets.blocks, &sets.inodes, second)?;
    go_down(store)
}

// Stops a volume that was repaired, and says what was recovered.
fn finish<H: Host, S: Tended>(
    host: &mut H,
    store: &mut S,
    mended: &Mended,
    recovered: u32,
    second: u32,
) -> u8
    requires fit { FitStore (S.sector_count store.old) mended.now.sets.blocks mended.now.sets.inodes }
    requires idle { S.tells → AreIdle (S.image store.old) mended.now.sets.blocks }
    ensures keeps { KeepsStore S.Stable SameFiles store.old store.new }
    ensures runs { Runs H.Host.own H.Say (StopsStore S.Stable mended.now recovered second store.old store.new) host.old host.new result }
{
    match stop_store(store, &mended.sets, second) {
        Err(Failed) => refuse(host, device_failed(0)),
        Ok(()) => answer(
            host,
            recovered_line(recovered, mended.repaired.changed).as_str(),
        ),
    }
}

// Repairs and stops the volume on a store, of whose board so many entries were recovered.
fn recover_store<H: Host, S: Tended>(
    alloc: Global,
    host: &mut H,
    store: &mut S,
    recovered: u32,
) -> u8
    ensures keeps { KeepsStore S.Stable SameFiles store.old store.new }
    ensures runs { Runs H.Host.own H.Say (RecoversStore S.Stable recovered store.old store.new) host.old host.new result }
{
    let second = host.now();
    match repair(alloc, store) {
        Err(fault) => refuse(host, volume_refusal(0, fault)),
        Ok(mended) => finish(host, store, &mended, recovered, second),
    }
}

/// Opens disk and board of a rig, perhaps with the loss of its board accepted; repairs the volume on them, and stops it cleanly. Its files are kept at
/// each moment.
pub fn recover_rig<H: Host, R: Rig + Drop>(
    alloc: Global,
    host: &mut H,
    rig: R,
    accept_loss: bool,
) -> (u8, R)
    ensures kept { Keeps R.Rig SameFiles rig result.1 }
    ensures runs { Runs H.Host.own H.Say (RecoversAs R.Rig accept_loss rig result.1) host.old host.new result.0 }
{
    match open(alloc, rig, accept_loss) {
        Err((fault, rig)) => (refuse(host, unit_refusal(0, fault)), rig),
        Ok(opened) => {
            let mut unit = opened.presto;
            let status = recover_store(alloc, host, &mut unit, opened.recovered);
            let rig = unit.into_rig();
            // its contract says that the number of sectors has 32 bits
            let _sectors = rig.sectors();
            (status, rig)
        }
    }
}
