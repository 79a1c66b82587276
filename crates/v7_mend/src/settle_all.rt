// The inodes of a volume.

ghost use Rattle.std.specs.Prelude.{◌≡◌, ◌≤◌, ◌<◌, ◌+◌, ◌-◌, ◌*◌, length, IfOk, OnOk};
ghost use Rattle.v7_map.specs.Frame.{frame};
ghost use Rattle.v7_map.specs.Image.{isize_of};
ghost use Rattle.v7_map.specs.Weak.{IsWeak};
ghost use Rattle.v7_mend.specs.Changes.{Differ, HasInodes};
ghost use Rattle.v7_mend.specs.Keeps.{KeepsFiles};
ghost use Rattle.v7_mend.specs.Repairs.{AreLinks, SettledTo};
ghost use Rattle.v7_mend.specs.Runs.{CountsPuts};

use crate::settle::settle_sector;
use stable::{Failed, Stable};

/// Settles each sector of inodes; `links` has for each inode, from 0 on, how many slots name it. Answers how many puts it made.
pub fn settle_all<S: Stable>(store: &mut S, isize: u32, links: &[u16]) -> Result<u32, Failed>
    requires low { 2 ≤ isize }
    requires high { isize ≤ 8193 }
    requires place { isize ≤ S.sector_count store.old }
    requires each { length links.now ≡ 8 * (isize - 2) + 1 }
    requires isize { S.tells → isize ≡ isize_of (S.image store.old) }
    requires links { S.tells → AreLinks (S.image store.old) links.now }
    requires weak { S.tells → IsWeak (frame (S.image store.old)) }
    requires trimmed { S.tells → SettledTo (S.image store.old) (S.image store.old) links.now 2 }
    ensures done { S.tells → OnOk result (SettledTo (S.image store.old) (S.image store.new) links.now isize) }
    ensures exact { S.tells → IfOk result (λ count. Differ (HasInodes isize) (S.image store.old) (S.image store.new) count) }
    ensures puts { CountsPuts S.Stable (KeepsFiles (S.image store.old)) (isize - 2) store.old store.new result }
{
    let mut changed = 0;
    for sector in 2..isize {
        changed += settle_sector(store, sector, links)?;
    }
    Ok(changed)
}
