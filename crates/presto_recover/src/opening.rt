// A unit is opened.
ghost use Rattle.std.specs.Prelude.{◌≡◌, [], Some, IfOk, IfErr};
ghost use Rattle.stable.specs.declared.state.Cause.{Cause as CauseOf};
ghost use Rattle.rig.specs.Looked.{Stays};
ghost use Rattle.presto_cache.specs.Cache.{Knows};
ghost use Rattle.presto_unit.specs.Disk.{FlushesAll};
ghost use Rattle.presto_unit.specs.Parts.{rig_of};
ghost use Rattle.presto_recover.specs.Opened.{IsOpened, StartsBy};
ghost use Rattle.presto_recover.specs.Refused.{IsRefused};

use crate::fault::OpenFault;
use crate::parts::{Opened, Prepared};
use crate::preparing::prepare;
use presto_unit::{Presto, flush_all};
use rig::Rig;
use stable::Cause;
use std::alloc::Global;

// The cause of a failure, if there was one.
fn cause_of(first: Option<Cause>) -> Cause
    ensures { (why : CauseOf) → first ≡ Some why → result ≡ why }
{
    match first {
        Some(cause) => cause,
        None => Cause::Disk,
    }
}

// Tries each entry once, in order.
fn recover<R: Rig + Drop>(rig: R, made: Prepared) -> Opened<R>
    requires knows { Knows R.Rig rig made.cache }
    requires changes { made.changes ≡ [] }
    ensures starts { StartsBy (R.faults rig) made.cache result }
    ensures lost { result.lost ≡ made.lost }
    ensures crash { FlushesAll R.Rig rig (rig_of result.presto) }
    ensures stays { Stays R.Rig rig (rig_of result.presto) }
{
    let mut rig = rig;
    let mut cache = made.cache;
    let found = cache.dirty();
    let first = flush_all(&mut cache, &mut rig);
    let recovered = found - cache.dirty();
    Opened {
        presto: Presto::start(rig, cache, made.changes, cause_of(first)),
        recovered,
        lost: made.lost,
    }
}

/// Opens a unit on a rig, after a stop or a crash. It reads the volume's name on the disk and then the board, and tries each entry once, in order: the unit
/// is DOWN where none is left, else in ERROR by the cause of the first failure. A rig without a board is opened without one.
///
/// It refuses, in this order: a disk of fewer than two sectors; a board that lost its memory, unless `accept_loss` stands; one that isn't formatted; one of
/// another volume; a damaged entry; an entry of sector 1 with another name. Failed comes where a device failed before an entry was tried, and NoMemory
/// where memory is short. The rig comes back, and nothing on it has changed. With `accept_loss` a lost board is formatted with the name on the disk and
/// marked as kept, which may have begun where a device then failed.
///
/// At each moment every sound crash keeps what disk and board stand for together, and what could be opened can be opened again.
pub fn open<R: Rig + Drop>(
    alloc: Global,
    rig: R,
    accept_loss: bool,
) -> Result<Opened<R>, (OpenFault, R)>
    ensures opened { IfOk result (IsOpened R.Rig accept_loss rig) }
    ensures refused { IfErr result (λ back. IsRefused R.Rig accept_loss rig back.1 back.0) }
{
    let mut rig = rig;
    match prepare(alloc, &mut rig, accept_loss) {
        Err(fault) => Err((fault, rig)),
        Ok(made) => Ok(recover(rig, made)),
    }
}
