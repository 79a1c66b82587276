// The super-block of a volume that is stopped cleanly.

ghost use Rattle.std.specs.Prelude.{ℕ, ◌≡◌, ◌≢◌, ◌<◌, ◌≤◌, ◌+◌, true, false, set, get_or, OnOk, length};
ghost use Rattle.index_sets.specs.Free.{count_free};
ghost use Rattle.stable.specs.Counts.{HasCause};
ghost use Rattle.stable.specs.Moments.{LeavesOnly};
ghost use Rattle.stable.specs.States.{SomePuts};
ghost use Rattle.stable.specs.Store.{StaysOpenable};
ghost use Rattle.v7_make.specs.Chains.{AreIdle, FitStore, IsChained, KeepsVolume, chain_puts};
ghost use Rattle.v7_make.specs.Stops.{chain_in, IsStopped, ListsLowest};

use crate::chain::write_records;
use index_sets::FreeSet;
use stable::{Failed, Stable};
use v7_layout::{Chain, Record, Super};
use v7_read::get_sector;

/// How many i-numbers a super-block lists at most.
const LISTED: usize = 100;

// Numbers of which so many places are left, before those that have one.
#[derive(Clone, Copy)]
struct Listing {
    numbers: [u16; LISTED],
    left: usize,
}

// The listing of none yet.
fn no_numbers(left: usize) -> Listing
    ensures left { result.left ≡ left }
    ensures none { (k : ℕ) → get_or result.numbers k 0 ≡ 0 }
{
    Listing {
        numbers: [0; LISTED],
        left,
    }
}

// The listing with one number more, if it is to be listed and there is a place left.
fn listed_with(listing: &Listing, item: u32, wanted: bool) -> Listing
    requires number { item < 65536 }
    requires places { listing.now.left ≤ 100 }
    ensures kept { wanted ≡ false → result ≡ listing.now }
    ensures full { listing.now.left ≡ 0 → result ≡ listing.now }
    ensures left { wanted ≡ true → listing.now.left ≢ 0 → result.left + 1 ≡ listing.now.left }
    ensures fewer { result.left ≤ listing.now.left }
    ensures placed { wanted ≡ true → listing.now.left ≢ 0 → result.numbers ≡ set listing.now.numbers result.left item }
{
    if !wanted {
        return *listing;
    }
    if listing.left == 0 {
        return *listing;
    }
    let left = listing.left - 1;
    let mut numbers = listing.numbers;
    numbers[left] = item as u16;
    Listing { numbers, left }
}

// The up to 100 lowest numbers of the set, the highest first, and how many they are.
fn lowest(inodes: &FreeSet) -> ([u16; LISTED], u16)
    requires { length inodes.now ≤ 65529 }
    ensures { ListsLowest inodes.now result.0 result.1 }
{
    let count = (inodes.count() as usize).min(LISTED);
    let mut listing = no_numbers(count);
    for item in 0..inodes.size() {
        listing = listed_with(&listing, item, inodes.has(item));
    }
    (listing.numbers, count as u16)
}

// The super-block with a chain of so many blocks and the free i-numbers, stopped at that second.
fn stopped(super_block: &Super, chain: &Chain, tfree: u32, inodes: &FreeSet, now: u32) -> Super
    requires { length inodes.now ≤ 65529 }
    ensures stopped { IsStopped super_block.now result tfree (count_free inodes.now) now }
    ensures chain { chain_in result ≡ chain.now }
    ensures listed { ListsLowest inodes.now result.s_inode result.s_ninode }
{
    let (s_inode, s_ninode) = lowest(inodes);
    Super {
        s_nfree: chain.s_nfree,
        s_free: chain.s_free,
        s_ninode,
        s_inode,
        s_fmod: 0,
        s_time: now,
        s_tfree: tfree,
        s_tinode: inodes.count() as u16,
        ..*super_block
    }
}

/// Writes the free chain of exactly these blocks, so that the lowest is taken first, and then the super-block of a volume that was
/// stopped cleanly at that second, which lists the lowest of these free i-numbers (filsys(5)). What the volume stands for stays at
/// each moment, and so do its name and each sector but the super-block and these blocks. It takes no memory.
///
/// After Failed some of the chain is written; nothing that the volume stands for has changed.
pub fn write_chain<S: Stable>(
    store: &mut S,
    blocks: &FreeSet,
    inodes: &FreeSet,
    now: u32,
) -> Result<(), Failed>
    requires fit { FitStore (S.sector_count store.old) blocks.now inodes.now }
    requires idle { S.tells → AreIdle (S.image store.old) blocks.now }
    ensures done { S.tells → OnOk result (IsChained (S.image store.old) (S.image store.new) blocks.now inodes.now now) }
    ensures crash { LeavesOnly S.moment S.left_since store.old store.new (KeepsVolume blocks.now (S.image store.old)) }
    ensures opens { S.tells → StaysOpenable S.opens_since S.moment store.old store.new }
    ensures cause { HasCause (S.faults store.old) (S.faults store.new) result }
    ensures sectors { S.sector_count store.new ≡ S.sector_count store.old }
    ensures snapshot { SomePuts (chain_puts blocks.now) (S.faults store.old) (S.faults store.new) (S.snapshot_of store.old) (S.snapshot_of store.new) }
{
    let super_block = Super::read(&get_sector(store, 1)?);
    let chain = write_records(store, blocks)?;
    let after = stopped(&super_block, &chain, blocks.count(), inodes, now);
    let mut bytes = [0; 512];
    after.write(&mut bytes);
    store.put(1, &bytes)
}
