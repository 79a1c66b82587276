// The repair of a volume.

ghost use Rattle.std.specs.Prelude.{IfOk};
ghost use Rattle.v7_make.specs.Chains.{FitStore};
ghost use Rattle.v7_repair.specs.Leaves.{Leaves};
ghost use Rattle.v7_repair.specs.Runs.{HasRun};

use crate::free::find_free;
use crate::mended::{Mended, Repaired};
use stable::{Failed, Stable};
use std::alloc::Global;
use v7_damage::{RepairFault, find_damage};
use v7_inspect::{Seen, judge_inodes, seen_of};
use v7_mend::mend;

/// Repairs a volume: where nothing is damaged, what can be mended is mended, and afterwards there is nothing to mend. `Damaged` tells the first test
/// that fails (docs/FORMATS.md, damage), by its sector and its kind, exactly where one does.
///
/// The volume has the same files at each moment. Each sector that has to differ is put once and no other, at most 73,719; the super-block stays as it
/// is. After `Damaged` and `NoMemory` nothing was put: all memory is taken before the first put. After `Failed` the rest is left to be mended by another
/// repair. It reads each sector of the i-list at most five times, each indirect block four times, and each sector of a walked directory twice; where
/// these are more than 200,000, the inodes and indirect blocks of some directories twice more.
pub fn repair<S: Stable>(alloc: Global, store: &mut S) -> Result<Mended, RepairFault>
    ensures leaves { S.tells → Leaves (S.image store.old) (S.image store.new) result }
    ensures fits { IfOk result (λ mended. FitStore (S.sector_count store.old) mended.sets.blocks mended.sets.inodes) }
    ensures run { HasRun S.Stable store.old store.new result }
{
    let known = match find_damage(alloc, store) {
        Ok(known) => known,
        Err(fault) => return Err(fault),
    };
    let judged = match judge_inodes(alloc, store, &known) {
        Ok(judged) => judged,
        Err(fault) => return Err(fault),
    };
    let sets = match find_free(alloc, store, &known, &judged.needed) {
        Ok(sets) => sets,
        Err(fault) => return Err(fault),
    };
    let seen = Seen {
        strong: true,
        ..seen_of(&known)
    };
    let changed = match mend(store, known.super_block.s_isize as u32, &known.counts) {
        Ok(changed) => changed,
        Err(Failed) => return Err(RepairFault::Failed),
    };
    let repaired = Repaired { changed, seen };
    Ok(Mended { repaired, sets })
}
