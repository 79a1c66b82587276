// Where the sectors of a body stand.

ghost use Rattle.std.specs.Prelude.{◌≡◌, ◌≢◌, ◌+◌, ◌-◌, ◌*◌, ◌<◌, ◌≤◌, length, IfOk};
ghost use Rattle.stable.specs.Counts.{HasCause};
ghost use Rattle.stable.specs.Looked.{Looked};
ghost use Rattle.v7_layout.specs.Numbers.{field};
ghost use Rattle.v7_map.specs.Stored.{address_within, sector_in};

use byteorder::{ByteOrder, LittleEndian};
use stable::{Failed, Stable};
use v7_layout::Inode;

/// How many sectors of a body have their address in the inode (filsys(5)).
const DIRECT: u32 = 10;

/// How many more have theirs in its single indirect block.
const INDIRECT: u32 = 128;

// An address of a store of so many sectors; one at or past its end is none.
fn within(sectors: u32, address: u32) -> u32
    ensures { result ≡ address_within sectors address }
{
    if address < sectors { address } else { 0 }
}

// Where the address of sector `index` of a body begins in the single indirect block.
fn place_in_block(index: u32) -> usize
    requires indirect { 10 ≤ index }
    requires within { index < 138 }
    ensures { result ≡ 4 * (index - 10) }
{
    4 * (index - DIRECT) as usize
}

/// The address of four bytes at a place of a block.
pub fn address_at(block: &[u8], at: usize) -> u32
    requires { at + 4 ≤ length block.now }
    ensures { result ≡ field block.now at 4 }
{
    LittleEndian::read_u32(&block[at..])
}

/// The sector of the store where sector `index` of the inode's body stands, 0 for none: it is missing
/// and reads as zeros, or no body has so many sectors. An address at or past the store's sectors is
/// taken as none, that of the single indirect block too. Reads at most one sector.
pub fn sector_of<S: Stable>(store: &mut S, inode: &Inode, index: u32) -> Result<u32, Failed>
    ensures found { S.tells → IfOk result (λ sector. sector ≡ sector_in (S.image store.old) inode.now index) }
    ensures within { IfOk result (λ sector. sector ≢ 0 → sector < S.sector_count store.old) }
    ensures cause { HasCause (S.faults store.old) (S.faults store.new) result }
    ensures looked { Looked S.Stable store.old store.new }
{
    let sectors = store.sectors();
    if index < DIRECT {
        return Ok(within(sectors, inode.direct[index as usize]));
    }
    if index >= DIRECT + INDIRECT {
        return Ok(0);
    }
    let block = within(sectors, inode.single);
    if block == 0 {
        return Ok(0);
    }
    let mut addresses = [0; 512];
    store.get(block, &mut addresses)?;
    let address = address_at(&addresses, place_in_block(index));
    Ok(within(sectors, address))
}
