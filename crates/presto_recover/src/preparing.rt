// What a unit starts with is found.
ghost use Rattle.std.specs.Prelude.{◌≡◌, ◌≤◌, IfOk, IfErr};
ghost use Rattle.presto_recover.specs.Boards.{IsPrepared};
ghost use Rattle.presto_recover.specs.Recovering.{OnlyFormats};
ghost use Rattle.presto_recover.specs.Refused.{IsReason, name_bytes};

use crate::fault::OpenFault;
use crate::finding::find_board;
use crate::parts::Prepared;
use crate::title::{check_name, read_name};
use presto_cache::Cache;
use presto_states::Ring;
use rig::{Failed, Rig};
use std::alloc::Global;

// Finds the board of the volume with that name on the disk, and makes the cache of it.
fn prepare_named<R: Rig>(
    alloc: Global,
    rig: &mut R,
    name: [u8; 6],
    accept_loss: bool,
) -> Result<Prepared, OpenFault>
    requires sectors { 2 ≤ (R.sizes rig.old).sectors }
    requires name { R.tells → name ≡ name_bytes (R.contents rig.old).disk }
    ensures prepared { IfOk result (IsPrepared R.Rig accept_loss rig.old rig.new) }
    ensures refused { IfErr result (IsReason R.Rig accept_loss rig.old rig.new) }
    ensures formats { OnlyFormats R.Rig accept_loss rig.old rig.new }
{
    let found = find_board(alloc, rig, name, accept_loss)?;
    let cache = Cache::new(alloc, &found.board, rig.buffers())?;
    let changes = Ring::new(alloc)?;
    match check_name(&cache, rig, name) {
        Err(fault) => Err(fault),
        Ok(()) => Ok(Prepared {
            cache,
            changes,
            lost: found.lost,
        }),
    }
}

/// Finds what a unit on the rig starts with. Nothing is flushed yet.
pub fn prepare<R: Rig>(alloc: Global, rig: &mut R, accept_loss: bool) -> Result<Prepared, OpenFault>
    ensures prepared { IfOk result (IsPrepared R.Rig accept_loss rig.old rig.new) }
    ensures refused { IfErr result (IsReason R.Rig accept_loss rig.old rig.new) }
    ensures formats { OnlyFormats R.Rig accept_loss rig.old rig.new }
{
    let sectors = rig.sectors();
    if sectors < 2 {
        return Err(OpenFault::NoSuper { sectors });
    }
    match read_name(rig) {
        Err(Failed) => Err(OpenFault::Failed),
        Ok(name) => prepare_named(alloc, rig, name, accept_loss),
    }
}
