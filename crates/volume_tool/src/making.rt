//! A volume is made on a rig.
ghost use Rattle.std.specs.Prelude.{◌≡◌, ◌<◌, ◌≤◌, ◌+◌, ◌++◌, take, drop, length, true, Ok, OnOk, IfOk};
ghost use Rattle.stable.specs.Counts.{HasCause};
ghost use Rattle.stable.specs.Store.{name_in};
ghost use Rattle.stable.specs.declared.state.State.TheVariants.{Down};
ghost use Rattle.rig.specs.Devices.{with_kept};
ghost use Rattle.presto_unit.specs.Parts.{rig_of, state_of};
ghost use Rattle.v7_make.specs.Sizes.{fitting};
ghost use Rattle.volume_tool.specs.Made.{HasMade, IsReady, MakesOn};
ghost use Rattle.volume_tool.specs.Asking.{plan_read};

use crate::boarded::Boarded;
use crate::words::Plan;
use nvram_map::{Board, format};
use presto_cache::Cache;
use presto_states::Ring;
use presto_unit::Presto;
use rig::{Failed, Rig};
use stable::Cause;
use std::alloc::Global;
use v7_make::{MakeFault, make};

// The sector with these bytes where the super-block has the volume's name.
fn with_name(sector: &[u8; 512], name: &[u8]) -> [u8; 512]
    requires { length name.now ≡ 6 }
    ensures { result ≡ take 434 sector.now ++ name.now ++ drop (434 + length name.now) sector.now }
{
    let mut sector = *sector;
    sector[434..440].copy_from_slice(name);
    sector
}

// A sector of zeros.
fn no_bytes() -> [u8; 512]
    ensures { length result ≡ 512 }
{
    [0; 512]
}

// A super-block that has this name, and is no volume's.
fn titled(name: [u8; 6]) -> [u8; 512]
    ensures { name_in result ≡ name }
{
    with_name(&no_bytes(), &name)
}

// Marks the board as one that kept its memory.
fn mark<R: Rig>(rig: &mut R) -> Result<(), Failed>
    ensures done { R.tells → OnOk result (R.contents rig.new ≡ with_kept (R.contents rig.old)) }
    ensures kept { OnOk result (R.is_kept rig.new ≡ true) }
    ensures cause { HasCause (R.faults rig.old) (R.faults rig.new) result }
    ensures sizes { R.sizes rig.new ≡ R.sizes rig.old }
{
    rig.mark_kept()
}

// Makes the board one of the volume with that name, which is put on the disk, and without an entry. The volume on the disk is no more.
fn prepare_board<R: Rig>(rig: &mut R, name: [u8; 6]) -> Result<(), Failed>
    requires board { 0 < (R.sizes rig.old).buffers }
    requires sectors { 2 ≤ (R.sizes rig.old).sectors }
    ensures ready { OnOk result (IsReady R.Rig name rig.new) }
    ensures cause { HasCause (R.faults rig.old) (R.faults rig.new) result }
    ensures sizes { R.sizes rig.new ≡ R.sizes rig.old }
{
    // its contract says that the number of sectors has 32 bits
    let _sectors = rig.sectors();
    rig.write(1, &titled(name))?;
    format(rig, name)?;
    mark(rig)
}

// Makes a rig ready for a volume of that name.
fn prepare<R: Rig>(rig: &mut R, name: [u8; 6]) -> Result<(), Failed>
    requires sectors { 2 ≤ (R.sizes rig.old).sectors }
    ensures ready { OnOk result (IsReady R.Rig name rig.new) }
    ensures cause { HasCause (R.faults rig.old) (R.faults rig.new) result }
    ensures sizes { R.sizes rig.new ≡ R.sizes rig.old }
{
    // its contract says that the number of sectors has 32 bits
    let _sectors = rig.sectors();
    if rig.buffers() == 0 {
        return Ok(());
    }
    prepare_board(rig, name)
}

// A unit on a rig whose board has no entry, or the rig back for want of memory.
fn start_unit<R: Rig + Drop>(alloc: Global, rig: R, name: [u8; 6]) -> Result<Presto<R>, R>
    requires ready { IsReady R.Rig name rig }
    ensures rig { IfOk result (λ unit. rig_of unit ≡ rig) }
    ensures down { R.tells → IfOk result (λ unit. state_of unit ≡ Down) }
{
    let board = Board::empty(alloc, name);
    let cache = match Cache::new(alloc, &board, rig.buffers()) {
        Ok(cache) => cache,
        Err(_) => return Err(rig),
    };
    match Ring::new(alloc) {
        Ok(ring) => Ok(Presto::start(rig, cache, ring, Cause::Disk)),
        Err(_) => Err(rig),
    }
}

// Makes a volume as planned on a unit with a board, which stays.
fn make_boarded<R: Rig + Drop>(
    alloc: Global,
    unit: Presto<R>,
    plan: &Plan,
) -> (Result<u32, MakeFault>, Presto<R>)
    requires board { 0 < (R.sizes (rig_of unit)).buffers }
    requires size { (R.sizes (rig_of unit)).sectors ≡ plan.now.size }
    requires some { 1 ≤ plan.now.inodes }
    requires fits { fitting plan.now.size plan.now.inodes ≡ Ok tt }
    ensures { HasMade (plan_read plan.now) unit result.1 result.0 }
{
    let mut store = Boarded { unit };
    let made = make(
        alloc,
        &mut store,
        plan.size,
        plan.inodes,
        plan.name,
        plan.second,
    );
    (made, store.unit)
}

// Makes a volume as planned on a unit without a board.
fn make_bare<R: Rig + Drop>(
    alloc: Global,
    unit: Presto<R>,
    plan: &Plan,
) -> (Result<u32, MakeFault>, Presto<R>)
    requires none { (R.sizes (rig_of unit)).buffers ≡ 0 }
    requires size { (R.sizes (rig_of unit)).sectors ≡ plan.now.size }
    requires some { 1 ≤ plan.now.inodes }
    requires fits { fitting plan.now.size plan.now.inodes ≡ Ok tt }
    ensures { HasMade (plan_read plan.now) unit result.1 result.0 }
{
    let mut unit = unit;
    let made = make(
        alloc,
        &mut unit,
        plan.size,
        plan.inodes,
        plan.name,
        plan.second,
    );
    (made, unit)
}

// Makes a volume as planned on a unit that has as many buffers.
fn make_unit<R: Rig + Drop>(
    alloc: Global,
    unit: Presto<R>,
    plan: &Plan,
) -> (Result<u32, MakeFault>, Presto<R>)
    requires buffers { (R.sizes (rig_of unit)).buffers ≡ plan.now.buffers }
    requires size { (R.sizes (rig_of unit)).sectors ≡ plan.now.size }
    requires some { 1 ≤ plan.now.inodes }
    requires fits { fitting plan.now.size plan.now.inodes ≡ Ok tt }
    ensures { HasMade (plan_read plan.now) unit result.1 result.0 }
{
    if plan.buffers == 0 {
        make_bare(alloc, unit, plan)
    } else {
        make_boarded(alloc, unit, plan)
    }
}

// Makes a volume as planned on a rig that is ready for it.
fn make_on<R: Rig + Drop>(alloc: Global, rig: R, plan: &Plan) -> (Result<u32, MakeFault>, R)
    requires ready { IsReady R.Rig plan.now.name rig }
    requires size { (R.sizes rig).sectors ≡ plan.now.size }
    requires buffers { (R.sizes rig).buffers ≡ plan.now.buffers }
    requires some { 1 ≤ plan.now.inodes }
    requires fits { fitting plan.now.size plan.now.inodes ≡ Ok tt }
    ensures { MakesOn R.Rig (plan_read plan.now) rig result.1 result.0 }
{
    match start_unit(alloc, rig, plan.name) {
        Err(rig) => (Err(MakeFault::NoMemory), rig),
        Ok(unit) => {
            let (made, unit) = make_unit(alloc, unit, plan);
            (made, unit.into_rig())
        }
    }
}

/// Makes a volume as planned on a rig that was made for it: its board, if there is one, is formatted with the name and marked as kept. It answers how
/// many blocks are free. After `Failed` and `NoMemory` there may be none.
pub fn make_volume<R: Rig + Drop>(alloc: Global, rig: R, plan: &Plan) -> (Result<u32, MakeFault>, R)
    requires size { (R.sizes rig).sectors ≡ plan.now.size }
    requires buffers { (R.sizes rig).buffers ≡ plan.now.buffers }
    requires some { 1 ≤ plan.now.inodes }
    requires fits { fitting plan.now.size plan.now.inodes ≡ Ok tt }
    ensures { MakesOn R.Rig (plan_read plan.now) rig result.1 result.0 }
{
    let mut rig = rig;
    match prepare(&mut rig, plan.name) {
        Err(Failed) => (Err(MakeFault::Failed), rig),
        Ok(()) => make_on(alloc, rig, plan),
    }
}
