// One sector of a file's body.

ghost use Rattle.std.specs.Prelude.{◌≡◌, ◌≢◌, ◌<◌, IfOk};
ghost use Rattle.stable.specs.Counts.{HasCause};
ghost use Rattle.stable.specs.Looked.{Looked};
ghost use Rattle.v7_map.specs.Stored.{sector_in, stored_sector};

use crate::get::sector_or_hole;
use crate::sector::sector_of;
use stable::{Failed, Stable};
use v7_layout::Inode;
use v7_map::clip;

/// Where a sector of a body stands, 0 where it is missing, and what it holds, zeros at and past the size.
#[derive(Clone, Copy)]
pub struct BodySector {
    pub address: u32,
    pub bytes: [u8; 512],
}

/// Reads sector `index` of the inode's body.
pub fn body_sector<S: Stable>(
    store: &mut S,
    inode: &Inode,
    index: u32,
) -> Result<BodySector, Failed>
    ensures address { S.tells → IfOk result (λ found. found.address ≡ sector_in (S.image store.old) inode.now index) }
    ensures bytes { S.tells → IfOk result (λ found. found.bytes ≡ stored_sector (S.image store.old) inode.now index) }
    ensures within { IfOk result (λ found. found.address ≢ 0 → found.address < S.sector_count store.old) }
    ensures cause { HasCause (S.faults store.old) (S.faults store.new) result }
    ensures looked { Looked S.Stable store.old store.new }
{
    let address = sector_of(store, inode, index)?;
    let mut bytes = sector_or_hole(store, address)?;
    clip(inode.size, index, &mut bytes);
    Ok(BodySector { address, bytes })
}
