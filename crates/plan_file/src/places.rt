// Where the blocks of a file stand.

ghost use Rattle.std.specs.Prelude.{◌≡◌, ◌≢◌, ◌<◌, ◌≤◌, ℕ, min, get_or, length, IfOk};
ghost use Rattle.stable.specs.Counts.{HasCause};
ghost use Rattle.stable.specs.Looked.{Looked};
ghost use Rattle.plan_file.specs.Places.{place_within, stored_place, ArePlaces, AreWithin, AreThrough};

use stable::{Failed, Stable};
use v7_layout::Inode;
use v7_read::read_places;

/// The most sectors that a volume has.
const MOST_SECTORS: u32 = 1_048_576;

/// The blocks of a file: those of its sectors in order, and the one with the addresses of all but the first ten. 0 is none.
#[derive(Clone, Copy)]
pub struct Places {
    pub body: [u32; 138],
    pub single: u32,
}

// An address; one of the first two sectors, or at or past the end of a store of so many sectors, is none.
fn within(sectors: u32, address: u32) -> u32
    ensures { result ≡ place_within sectors address }
{
    if 2 <= address && address < sectors {
        address
    } else {
        0
    }
}

// The address of sector `index` among the places of an inode, none where there is no block of addresses.
fn stored_place(places: &[u32; 140], single: u32, index: usize) -> u32
    requires { index < 138 }
    ensures { result ≡ stored_place places.now single index }
{
    if index < 10 {
        places[index]
    } else if single == 0 {
        0
    } else {
        places[index + 1]
    }
}

// The blocks of the sectors of a file.
fn body_places(sectors: u32, places: &[u32; 140], single: u32) -> [u32; 138]
    ensures long { length result ≡ 138 }
    ensures within { (k : ℕ) → get_or result k 0 ≢ 0 → (2 ≤ get_or result k 0) × (get_or result k 0 < sectors) }
    ensures places { (k : ℕ) → k < 138 → get_or result k 0 ≡ place_within sectors (stored_place places.now single k) }
{
    let mut body = [0; 138];
    for index in 0..138 {
        body[index] = within(sectors, stored_place(places, single, index));
    }
    body
}

/// Reads where the blocks of a file stand, with at most one read. An address that no volume of the store has is none.
pub fn file_places<S: Stable>(store: &mut S, inode: &Inode) -> Result<Places, Failed>
    ensures places { S.tells → IfOk result (λ places. ArePlaces (S.image store.old) (min (S.sector_count store.old) 1048576) inode.now places) }
    ensures within { IfOk result (λ places. AreWithin (min (S.sector_count store.old) 1048576) places) }
    ensures through { IfOk result AreThrough }
    ensures cause { HasCause (S.faults store.old) (S.faults store.new) result }
    ensures looked { Looked S.Stable store.old store.new }
{
    let sectors = store.sectors().min(MOST_SECTORS);
    let places = read_places(store, inode)?;
    let single = within(sectors, places[10]);
    Ok(Places {
        body: body_places(sectors, &places, single),
        single,
    })
}
