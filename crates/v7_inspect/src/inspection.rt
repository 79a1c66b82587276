// The inspection of a volume.

ghost use Rattle.std.specs.Prelude.{◌≡◌, IsErrOf};
ghost use Rattle.stable.specs.Counts.{Rose};
ghost use Rattle.stable.specs.Looked.{Looked};
ghost use Rattle.stable.specs.Store.{Image};
ghost use Rattle.v7_damage.specs.Undamaged.{IsUndamaged};
ghost use Rattle.v7_damage.specs.declared.damage.RepairFault.TheVariants as fault;
ghost use Rattle.v7_inspect.specs.Judged.{HasRows};
ghost use Rattle.v7_inspect.specs.SeenNumbers.{IsInspected, IsSeen};

use crate::seen::Seen;
use crate::summed::sum_up;
use crate::tally::count_kind;
use files_model::Kind;
use stable::Stable;
use std::alloc::Global;
use v7_damage::{RepairFault, Undamaged, find_damage};

/// What is seen of a volume without damage, of which all this is known.
pub fn seen_of(known: &Undamaged) -> Seen
    requires { HasRows known.now }
    ensures { (image : Image) → IsUndamaged image known.now → IsSeen image result }
{
    let sum = sum_up(known);
    let data = known
        .super_block
        .s_fsize
        .saturating_sub(known.super_block.s_isize as u32);
    Seen {
        strong: sum.strong,
        clean: known.super_block.s_fmod == 0,
        files: count_kind(Kind::Regular, known),
        directories: count_kind(Kind::Directory, known),
        links: count_kind(Kind::Link, known),
        used: sum.used,
        free: data.saturating_sub(sum.used),
    }
}

/// Looks whether a volume can be mended, and what is in it. `Damaged` tells the first test that fails (docs/FORMATS.md, damage), by its sector and
/// its kind, exactly where one does. After `Failed` and `NoMemory` nothing is known. It reads what `find_damage` reads, and no more. Nothing is changed.
pub fn inspect<S: Stable>(alloc: Global, store: &mut S) -> Result<Seen, RepairFault>
    ensures inspected { S.tells → IsInspected (S.image store.old) result }
    ensures cause { IsErrOf result fault.Failed → Rose (S.faults store.old) (S.faults store.new) }
    ensures looked { Looked S.Stable store.old store.new }
{
    let known = match find_damage(alloc, store) {
        Ok(known) => known,
        Err(fault) => return Err(fault),
    };
    Ok(seen_of(&known))
}
