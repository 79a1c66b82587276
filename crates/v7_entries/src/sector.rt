// The slots in one sector of a directory.

ghost use Rattle.std.specs.Prelude.{◌≡◌, ◌≢◌, ◌<◌, ◌≤◌, ℕ, true, false, Some, IfOk, IfSome};
ghost use Rattle.std.specs.Option.{is_none, is_some};
ghost use Rattle.files_model.specs.Names.{has_name, number_of};
ghost use Rattle.stable.specs.Counts.{HasCause};
ghost use Rattle.stable.specs.Looked.{Looked};
ghost use Rattle.v7_dir.specs.Slots.{slot_in};
ghost use Rattle.v7_map.specs.Image.{sector_at};
ghost use Rattle.v7_entries.specs.Hits.{HitsIn, HasUsed};

use files_model::Name;
use stable::{Failed, Stable};
use v7_dir::{find, first_empty};
use v7_layout::{Record, Slot};
use v7_read::get_sector;

/// A slot of a sector that was looked for: its number there, and its i-number, 0 of an empty one.
#[derive(Clone, Copy)]
pub(crate) struct Hit {
    pub(crate) index: u32,
    pub(crate) ino: u16,
}

/// Reads a sector of slots; there is none at block 0, or at or past the store's end.
pub(crate) fn read_slots<S: Stable>(store: &mut S, block: u32) -> Result<Option<[u8; 512]>, Failed>
    ensures done { S.tells → block ≢ 0 → block < S.sector_count store.old → IfOk result (λ read. read ≡ Some (sector_at (S.image store.old) block)) }
    ensures within { IfOk result (λ read. IfSome read (λ _. block < S.sector_count store.old)) }
    ensures cause { HasCause (S.faults store.old) (S.faults store.new) result }
    ensures looked { Looked S.Stable store.old store.new }
{
    if block == 0 {
        return Ok(None);
    }
    if block >= store.sectors() {
        return Ok(None);
    }
    let bytes = get_sector(store, block)?;
    Ok(Some(bytes))
}

/// The i-number in slot `index` of a sector, 0 of an empty one.
#[tactic(auto, unfolding(v7_map::specs::Frame::slot_of))]
pub(crate) fn number_in(bytes: &[u8; 512], index: u32) -> u16
    requires { index < 32 }
    ensures { result ≡ number_of (slot_in bytes.now index) }
{
    let at = 16 * index as usize;
    Slot::read(&bytes[at..at + 16]).ino
}

// The first of so many slots that has this name.
fn name_hit(bytes: &[u8; 512], count: usize, name: &Name) -> Option<Hit>
    requires { count ≤ 32 }
    ensures { HitsIn (has_name name.now) bytes.now count result }
{
    let index = find(&bytes[..16 * count], name)?;
    let ino = number_in(bytes, index);
    Some(Hit { index, ino })
}

// The first of so many slots that is empty.
fn empty_hit(bytes: &[u8; 512], count: usize) -> Option<Hit>
    requires { count ≤ 32 }
    ensures { HitsIn is_none bytes.now count result }
{
    let index = first_empty(&bytes[..16 * count])?;
    let ino = number_in(bytes, index);
    Some(Hit { index, ino })
}

// One of the slots from one on and before another isn't empty.
fn is_used_from(bytes: &[u8; 512], from: usize, count: usize) -> bool
    requires { count ≤ 32 }
    ensures { HasUsed bytes.now from count result }
{
    for index in from..count {
        if number_in(bytes, index as u32) != 0 {
            return true;
        }
    }
    false
}

/// The first of so many slots in a sector that has this name.
pub(crate) fn find_name<S: Stable>(
    store: &mut S,
    block: u32,
    count: usize,
    name: &Name,
) -> Result<Option<Hit>, Failed>
    requires { count ≤ 32 }
    ensures found { S.tells → block ≢ 0 → block < S.sector_count store.old → IfOk result (λ hit. HitsIn (has_name name.now) (sector_at (S.image store.old) block) count hit) }
    ensures within { IfOk result (λ hit. IfSome hit (λ hit. (hit.index < count) × (block < S.sector_count store.old))) }
    ensures cause { HasCause (S.faults store.old) (S.faults store.new) result }
    ensures looked { Looked S.Stable store.old store.new }
{
    match read_slots(store, block)? {
        Some(bytes) => Ok(name_hit(&bytes, count, name)),
        None => Ok(None),
    }
}

/// The first of so many slots in a sector that is empty.
pub(crate) fn find_hole<S: Stable>(
    store: &mut S,
    block: u32,
    count: usize,
) -> Result<Option<Hit>, Failed>
    requires { count ≤ 32 }
    ensures found { S.tells → block ≢ 0 → block < S.sector_count store.old → IfOk result (λ hit. HitsIn is_none (sector_at (S.image store.old) block) count hit) }
    ensures within { IfOk result (λ hit. IfSome hit (λ hit. (hit.index < count) × (block < S.sector_count store.old))) }
    ensures cause { HasCause (S.faults store.old) (S.faults store.new) result }
    ensures looked { Looked S.Stable store.old store.new }
{
    match read_slots(store, block)? {
        Some(bytes) => Ok(empty_hit(&bytes, count)),
        None => Ok(None),
    }
}

/// Whether one of the slots of a sector from one on and before another isn't empty.
pub(crate) fn has_used<S: Stable>(
    store: &mut S,
    block: u32,
    from: usize,
    count: usize,
) -> Result<bool, Failed>
    requires { count ≤ 32 }
    ensures found { S.tells → block ≢ 0 → block < S.sector_count store.old → IfOk result (λ has. HasUsed (sector_at (S.image store.old) block) from count has) }
    ensures cause { HasCause (S.faults store.old) (S.faults store.new) result }
    ensures looked { Looked S.Stable store.old store.new }
{
    match read_slots(store, block)? {
        Some(bytes) => Ok(is_used_from(&bytes, from, count)),
        None => Ok(false),
    }
}
