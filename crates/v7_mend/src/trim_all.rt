// The blocks of addresses of all inodes, by the sectors where the inodes stand.

ghost use Rattle.std.specs.Prelude.{◌≡◌, ◌<◌, ◌≤◌, ◌+◌, ◌-◌, ◌*◌, length, IfOk, OnOk};
ghost use Rattle.v7_map.specs.Frame.{frame};
ghost use Rattle.v7_map.specs.Image.{isize_of, sector_at};
ghost use Rattle.v7_map.specs.Weak.{IsWeak};
ghost use Rattle.v7_mend.specs.Changes.{Differ, IsMapIn};
ghost use Rattle.v7_mend.specs.Keeps.{KeepsFiles};
ghost use Rattle.v7_mend.specs.Runs.{CountsPuts};
ghost use Rattle.v7_mend.specs.Trims.{AreTrimmed, first_in};

use crate::trim::trim_map;
use stable::{Failed, Stable};
use v7_read::get_sector;

/// Trims the blocks of addresses of the inodes of a sector, as `held` is, that are to stay. Answers how many puts it made.
fn trim_eight<S: Stable>(
    store: &mut S,
    sector: u32,
    links: &[u16],
    held: &[u8; 512],
) -> Result<u32, Failed>
    requires past { 2 ≤ sector }
    requires room { 8 * (sector - 2) + 8 < length links.now }
    requires few { length links.now ≤ 65529 }
    requires held { S.tells → held.now ≡ sector_at (S.image store.old) sector }
    requires inodes { S.tells → sector < isize_of (S.image store.old) }
    requires weak { S.tells → IsWeak (frame (S.image store.old)) }
    ensures done { S.tells → OnOk result (AreTrimmed (S.image store.old) (S.image store.new) links.now (first_in sector) (first_in sector + 8)) }
    ensures exact { S.tells → IfOk result (λ count. Differ (IsMapIn (S.image store.old) (first_in sector) (first_in sector + 8)) (S.image store.old) (S.image store.new) count) }
    ensures puts { CountsPuts S.Stable (KeepsFiles (S.image store.old)) 8 store.old store.new result }
{
    let first = 8 * (sector - 2) + 1;
    let mut changed = 0;
    for ino in first..first + 8 {
        changed += trim_map(store, held, ino, links[ino as usize])?;
    }
    Ok(changed)
}

/// Trims the blocks of addresses of the inodes of a sector that are to stay. Answers how many puts it made.
fn trim_sector<S: Stable>(store: &mut S, sector: u32, links: &[u16]) -> Result<u32, Failed>
    requires place { sector < S.sector_count store.old }
    requires past { 2 ≤ sector }
    requires room { 8 * (sector - 2) + 8 < length links.now }
    requires few { length links.now ≤ 65529 }
    requires inodes { S.tells → sector < isize_of (S.image store.old) }
    requires weak { S.tells → IsWeak (frame (S.image store.old)) }
    ensures done { S.tells → OnOk result (AreTrimmed (S.image store.old) (S.image store.new) links.now (first_in sector) (first_in sector + 8)) }
    ensures exact { S.tells → IfOk result (λ count. Differ (IsMapIn (S.image store.old) (first_in sector) (first_in sector + 8)) (S.image store.old) (S.image store.new) count) }
    ensures puts { CountsPuts S.Stable (KeepsFiles (S.image store.old)) 8 store.old store.new result }
{
    let held = get_sector(store, sector)?;
    trim_eight(store, sector, links, &held)
}

/// Trims the blocks of addresses that are to stay; `links` has for each inode, from 0 on, how many slots name it. Answers how many puts it made.
pub fn trim_all<S: Stable>(store: &mut S, isize: u32, links: &[u16]) -> Result<u32, Failed>
    requires low { 2 ≤ isize }
    requires high { isize ≤ 8193 }
    requires place { isize ≤ S.sector_count store.old }
    requires each { length links.now ≡ 8 * (isize - 2) + 1 }
    requires isize { S.tells → isize ≡ isize_of (S.image store.old) }
    requires weak { S.tells → IsWeak (frame (S.image store.old)) }
    ensures done { S.tells → OnOk result (AreTrimmed (S.image store.old) (S.image store.new) links.now 1 (first_in isize)) }
    ensures exact { S.tells → IfOk result (λ count. Differ (IsMapIn (S.image store.old) 1 (first_in isize)) (S.image store.old) (S.image store.new) count) }
    ensures puts { CountsPuts S.Stable (KeepsFiles (S.image store.old)) (8 * (isize - 2)) store.old store.new result }
{
    let mut changed = 0;
    for sector in 2..isize {
        changed += trim_sector(store, sector, links)?;
    }
    Ok(changed)
}
