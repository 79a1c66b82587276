// A volume that can be mended is mended.

ghost use Rattle.std.specs.Prelude.{◌-◌, ◌*◌, IfOk, OnOk};
ghost use Rattle.v7_mend.specs.Changes.{Differ, MayChange};
ghost use Rattle.v7_mend.specs.Keeps.{KeepsVolume};
ghost use Rattle.v7_mend.specs.Repairs.{CanMend, HasLinks, IsMended};
ghost use Rattle.v7_mend.specs.Runs.{CountsPuts};

use crate::settle_all::settle_all;
use crate::trim_all::trim_all;
use stable::{Failed, Stable};

/// Mends a volume whose list of inodes ends at block `isize`; `links` has for each i-number, from 0 on, how many slots of walked directories name it.
///
/// Stored link counts become the counted ones, used inodes without names are freed, addresses past sizes are cleared, and so is that of a block of
/// addresses that has none (filsys(5)). Each sector that has to differ is put once and no other, at most nine for each sector of inodes; the answer is
/// how many. At each moment the volume has the same files and can be mended; after Failed the rest is left to be mended. It takes no memory, reads each
/// sector of inodes twice and each block of addresses at most twice.
pub fn mend<S: Stable>(store: &mut S, isize: u32, links: &[u16]) -> Result<u32, Failed>
    requires sizes { HasLinks isize (S.sector_count store.old) links.now }
    requires found { S.tells → CanMend (S.image store.old) isize links.now }
    ensures mended { S.tells → OnOk result (IsMended (S.image store.old) (S.image store.new) links.now) }
    ensures exact { S.tells → IfOk result (λ changed. Differ (MayChange (S.image store.old)) (S.image store.old) (S.image store.new) changed) }
    ensures puts { CountsPuts S.Stable (KeepsVolume (S.image store.old)) (9 * (isize - 2)) store.old store.new result }
{
    let trimmed = trim_all(store, isize, links)?;
    let settled = settle_all(store, isize, links)?;
    Ok(trimmed + settled)
}
