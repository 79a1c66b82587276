// Inodes are settled: link counts, addresses past sizes, inodes without names.

ghost use Rattle.std.specs.Prelude.{ℕ, ◌≡◌, ◌<◌, ◌≤◌, ◌+◌, ◌-◌, ◌*◌, [], length, get_or, IfOk, OnOk};
ghost use Rattle.stable.specs.Counts.{HasCause};
ghost use Rattle.stable.specs.Looked.{Looked};
ghost use Rattle.v7_layout.specs.Written.{AddressesFit};
ghost use Rattle.v7_map.specs.Image.{inode_sector};
ghost use Rattle.v7_mend.specs.Changes.{PutsSome};
ghost use Rattle.v7_mend.specs.Runs.{CountsPuts};
ghost use Rattle.v7_mend.specs.Settled.{settled_inode, holds_in};
ghost use Rattle.v7_mend.specs.Settles.{inode_here, MapStands, MaySettle, ReplacesInode, SetsInode, SettledBytes, Settles};

use crate::put::put_changed;
use crate::settled::{holds_address, settled};
use crate::trim::map_of;
use stable::{Failed, Stable};
use v7_layout::{Inode, Record};
use v7_map::sectors_of;
use v7_read::{get_sector, inode_in, inode_offset_of};

/// An inode as it is after a repair, where so many slots name it. Nothing is changed.
fn settle<S: Stable>(store: &mut S, inode: &Inode, links: u16) -> Result<Inode, Failed>
    requires fits { AddressesFit inode.now }
    requires map { S.tells → MapStands (S.image store.old) inode.now }
    ensures done { S.tells → IfOk result (λ after. after ≡ settled_inode inode.now links (holds_in (S.image store.old) inode.now)) }
    ensures fits { IfOk result (λ after. AddressesFit after) }
    ensures cause { HasCause (S.faults store.old) (S.faults store.new) result }
    ensures looked { Looked S.Stable store.old store.new }
{
    let map = map_of(inode, links, store.sectors());
    if map == 0 {
        return Ok(settled(inode, links, false));
    }
    let block = get_sector(store, map)?;
    let stays = holds_address(&block, sectors_of(inode.size));
    Ok(settled(inode, links, stays))
}

/// The sector with this inode in place of the one that it has of the number.
fn replaced(sector: &[u8; 512], ino: u32, inode: &Inode) -> [u8; 512]
    requires { AddressesFit inode.now }
    ensures { ReplacesInode sector.now ino inode.now result }
{
    let mut bytes = [0; 64];
    inode.write(&mut bytes);
    let at = inode_offset_of(ino);
    let mut sector = *sector;
    sector[at..at + 64].copy_from_slice(&bytes);
    sector
}

/// The sector with this inode at its number, where it has `held` there.
fn updated(sector: &[u8; 512], ino: u32, held: &Inode, inode: &Inode) -> [u8; 512]
    requires number { 1 ≤ ino }
    requires fits { AddressesFit inode.now }
    requires held { inode_here sector.now ino ≡ held.now }
    ensures { SetsInode sector.now ino inode.now result }
{
    if *held == *inode {
        return *sector;
    }
    replaced(sector, ino, inode)
}

/// A sector of inodes, as `held` is, after a repair. Nothing is changed.
fn settle_eight<S: Stable>(
    store: &mut S,
    sector: u32,
    links: &[u16],
    held: &[u8; 512],
) -> Result<[u8; 512], Failed>
    requires past { 2 ≤ sector }
    requires room { 8 * (sector - 2) + 8 < length links.now }
    requires few { length links.now ≤ 65529 }
    requires held { S.tells → held.now ≡ get_or (S.image store.old) sector [] }
    requires maps { S.tells → (i : ℕ) → 1 ≤ i → inode_sector i ≡ sector → MapStands (S.image store.old) (inode_here held.now i) }
    ensures done { S.tells → IfOk result (λ bytes. SettledBytes (S.image store.old) sector links.now bytes) }
    ensures cause { HasCause (S.faults store.old) (S.faults store.new) result }
    ensures looked { Looked S.Stable store.old store.new }
{
    let first = 8 * (sector - 2) + 1;
    let mut bytes = *held;
    for ino in first..first + 8 {
        let inode = inode_in(held, ino);
        let after = match settle(store, &inode, links[ino as usize]) {
            Ok(after) => after,
            Err(failed) => return Err(failed),
        };
        bytes = updated(&bytes, ino, &inode, &after);
    }
    Ok(bytes)
}

/// Puts a sector of inodes as it is after a repair, if that differs. Answers how many puts it made.
pub fn settle_sector<S: Stable>(store: &mut S, sector: u32, links: &[u16]) -> Result<u32, Failed>
    requires place { sector < S.sector_count store.old }
    requires past { 2 ≤ sector }
    requires room { 8 * (sector - 2) + 8 < length links.now }
    requires few { length links.now ≤ 65529 }
    requires maps { S.tells → (i : ℕ) → 1 ≤ i → inode_sector i ≡ sector → MapStands (S.image store.old) (inode_here (get_or (S.image store.old) sector []) i) }
    ensures done { S.tells → OnOk result (Settles (S.image store.old) (S.image store.new) sector links.now) }
    ensures needed { S.tells → IfOk result (λ count. PutsSome count (S.image store.old) (S.image store.new) sector) }
    ensures puts { CountsPuts S.Stable (MaySettle (S.image store.old) sector links.now) 1 store.old store.new result }
{
    let held = get_sector(store, sector)?;
    let bytes = settle_eight(store, sector, links, &held)?;
    put_changed(store, sector, &held, &bytes)
}
