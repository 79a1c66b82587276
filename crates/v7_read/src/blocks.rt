// Where all blocks of an inode stand.

ghost use Rattle.std.specs.Prelude.{◌≡◌, ◌<◌, ℕ, get_or, replicate, IfOk};
ghost use Rattle.stable.specs.Counts.{HasCause};
ghost use Rattle.stable.specs.Looked.{Looked};
ghost use Rattle.v7_read.specs.Places.{ArePlaces, IsListing, block_in};

use crate::get::{empty_sector, get_sector};
use crate::sector::address_at;
use stable::{Failed, Stable};
use v7_layout::Inode;

// The bytes of a block of addresses, zeros where there is none in the store.
fn read_listing<S: Stable>(store: &mut S, block: u32) -> Result<[u8; 512], Failed>
    ensures listing { S.tells → IfOk result (λ bytes. IsListing (S.image store.old) block bytes) }
    ensures cause { HasCause (S.faults store.old) (S.faults store.new) result }
    ensures looked { Looked S.Stable store.old store.new }
{
    if block == 0 {
        return Ok(empty_sector());
    }
    if block >= store.sectors() {
        return Ok(empty_sector());
    }
    get_sector(store, block)
}

// The block at a place of an inode, by the bytes of its block of addresses.
fn block_at(inode: &Inode, listing: &[u8; 512], place: usize) -> u32
    requires { place < 140 }
    ensures { result ≡ block_in inode.now listing.now place }
{
    if place < 10 {
        return inode.direct[place];
    }
    if place == 10 {
        return inode.single;
    }
    if place < 139 {
        return address_at(listing, 4 * (place - 11));
    }
    inode.double
}

// The blocks at the places of an inode, by the bytes of its block of addresses.
fn blocks_by(inode: &Inode, listing: &[u8; 512]) -> [u32; 140]
    ensures { (k : ℕ) → k < 140 → get_or result k 0 ≡ block_in inode.now listing.now k }
{
    let mut places = [0; 140];
    for place in 0..140 {
        places[place] = block_at(inode, listing, place);
    }
    places
}

// No blocks.
fn no_blocks() -> [u32; 140]
    ensures { result ≡ replicate 140 0 }
{
    [0; 140]
}

/// The blocks at the 140 places of an inode, each as it is stored, 0 for none: ten direct ones, the single indirect block, the 128 whose addresses
/// stand there, and the double one (filsys(5)). A free inode has none, and an indirect block at or past the store's end lists none. Reads at most
/// one sector.
pub fn read_places<S: Stable>(store: &mut S, inode: &Inode) -> Result<[u32; 140], Failed>
    ensures places { S.tells → IfOk result (λ places. ArePlaces (S.image store.old) inode.now places) }
    ensures cause { HasCause (S.faults store.old) (S.faults store.new) result }
    ensures looked { Looked S.Stable store.old store.new }
{
    if inode.mode == 0 {
        return Ok(no_blocks());
    }
    let listing = read_listing(store, inode.single)?;
    Ok(blocks_by(inode, &listing))
}
