// Blocks of addresses lose those past the sizes.

ghost use Rattle.std.specs.Prelude.{true, ◌≡◌, ◌<◌, ◌≤◌, IfOk, OnOk};
ghost use Rattle.v7_map.specs.Frame.{frame};
ghost use Rattle.v7_map.specs.Image.{inode_at, inode_sector, is_inode, sector_at};
ghost use Rattle.v7_map.specs.Weak.{IsWeak};
ghost use Rattle.v7_mend.specs.Changes.{PutsSome};
ghost use Rattle.v7_mend.specs.Runs.{CountsPuts};
ghost use Rattle.v7_mend.specs.Trims.{Either, map_within, trimmed_at, trimmed_block};

use crate::put::put_changed;
use crate::settled::{PLACES, holds_address, trim};
use stable::{Failed, Stable};
use v7_layout::Inode;
use v7_map::sectors_of;
use v7_read::{get_sector, inode_in};

/// The first sector past the super-block. A repair puts none before it, whatever a damaged volume says.
const FIRST: u32 = 2;

/// Trims the block of addresses in a sector to a body of so many sectors, if it has an address of one of these. Answers how many puts it made.
fn trim_block<S: Stable>(store: &mut S, sector: u32, sectors: u32) -> Result<u32, Failed>
    requires place { sector < S.sector_count store.old }
    requires past { 2 ≤ sector }
    requires most { sectors ≤ 138 }
    ensures done { S.tells → OnOk result (S.image store.new ≡ trimmed_block (S.image store.old) sector sectors) }
    ensures needed { S.tells → IfOk result (λ count. PutsSome count (S.image store.old) (S.image store.new) sector) }
    ensures puts { CountsPuts S.Stable (Either (S.image store.old) (trimmed_block (S.image store.old) sector sectors)) 1 store.old store.new result }
{
    let block = get_sector(store, sector)?;
    if !holds_address(&block, sectors) {
        return Ok(0);
    }
    put_changed(store, sector, &block, &trim(&block, sectors))
}

/// The block of addresses that an inode names, where the volume has a sector of that number past its super-block; else 0.
pub fn map_of(inode: &Inode, links: u16, sectors: u32) -> u32
    ensures { result ≡ map_within inode.now links sectors }
{
    if inode.mode == 0 || links == 0 || inode.single < FIRST || inode.single >= sectors {
        return 0;
    }
    inode.single
}

/// Trims the block of addresses of an inode, if that is to stay: so many slots name the inode, and `held` is the sector where it stands. Answers how many puts it made.
pub fn trim_map<S: Stable>(
    store: &mut S,
    held: &[u8; 512],
    ino: u32,
    links: u16,
) -> Result<u32, Failed>
    requires held { S.tells → held.now ≡ sector_at (S.image store.old) (inode_sector ino) }
    requires number { S.tells → is_inode (S.image store.old) ino ≡ true }
    requires weak { S.tells → IsWeak (frame (S.image store.old)) }
    ensures done { S.tells → OnOk result (S.image store.new ≡ trimmed_at (S.image store.old) ino links) }
    ensures needed { S.tells → IfOk result (λ count. PutsSome count (S.image store.old) (S.image store.new) (inode_at (S.image store.old) ino).single) }
    ensures puts { CountsPuts S.Stable (Either (S.image store.old) (trimmed_at (S.image store.old) ino links)) 1 store.old store.new result }
{
    let inode = inode_in(held, ino);
    let map = map_of(&inode, links, store.sectors());
    if map == 0 {
        return Ok(0);
    }
    trim_block(store, map, sectors_of(inode.size).min(PLACES))
}
