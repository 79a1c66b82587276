// The entries in the slots of one sector.

ghost use Rattle.std.specs.Prelude.{◌≡◌, ◌≢◌, ◌<◌, ◌≤◌, ℕ, ◌+◌, ◌%◌, List, length, not, ◌==◌, IfOk, OnOk, IfSome};
ghost use Rattle.std.specs.List.{take_while};
ghost use Rattle.files_model.specs.declared.entries.Entry.{Entry};
ghost use Rattle.stable.specs.Counts.{HasCause};
ghost use Rattle.stable.specs.Looked.{Looked};
ghost use Rattle.v7_dir.specs.Slots.{slot_in};
ghost use Rattle.v7_map.specs.Image.{sector_at};
ghost use Rattle.v7_entries.specs.Bodies.{body_at};
ghost use Rattle.v7_contents.specs.Pages.{GoesOn, IsOpen, FitsReply, entry_of, with_entry};

use crate::page::Page;
use files_model::{Entry, Name, NoMemory};
use stable::{Failed, Stable};
use v7_layout::{Record, Slot};
use v7_read::sector_or_hole;

// The name in the 14 bytes that a slot has for it.
fn name_in(padded: &[u8; 14]) -> Name
    ensures name { result ≡ take_while (λ b. not (b == 0)) padded.now }
    ensures short { length result ≤ 14 }
{
    let end = padded.iter().position(|byte| *byte == 0).unwrap_or(14);
    Name::copy(&padded[..end])
}

// The entry in a slot of a sector of a directory; slots are numbered through the directory.
#[tactic(auto, unfolding(v7_map::specs::Frame::slot_of))]
fn entry_in(bytes: &[u8; 512], slot: u32) -> Option<Entry>
    requires { slot < 4416 }
    ensures entry { result ≡ entry_of slot (slot_in bytes.now (slot % 32)) }
    ensures short { IfSome result (λ entry. length entry.name ≤ 14) }
{
    let at = 16 * (slot % 32) as usize;
    let found = Slot::read(&bytes[at..at + 16]);
    if found.ino == 0 {
        return None;
    }
    Some(Entry {
        fileid: u32::from(found.ino),
        name: name_in(&found.name),
        cookie: slot + 1,
    })
}

/// Puts the entries of a sector into a page, from one slot on and before another, up to the first that the page leaves, and tells whether it left
/// none.
pub(crate) fn add_slots(
    page: &mut Page,
    bytes: &[u8; 512],
    from: u32,
    end: u32,
) -> Result<bool, NoMemory>
    requires order { from ≤ end }
    requires few { end ≤ 4416 }
    ensures goes_on { (room : ℕ) (left : List Entry) (rest : ℕ → List Entry) → ((k : ℕ) → from ≤ k → k < end → rest k ≡ with_entry (entry_of k (slot_in bytes.now (k % 32))) (rest (k + 1))) → IsOpen room left page.old (rest from) → IfOk result (λ all. GoesOn all room left page.new (rest end)) }
    ensures fits { FitsReply page.old → OnOk result (FitsReply page.new) }
{
    for slot in from..end {
        if let Some(entry) = entry_in(bytes, slot) {
            if !page.add(entry)? {
                return Ok(false);
            }
        }
    }
    Ok(true)
}

// The block of sector `index` of a directory, by the 140 blocks of its inode, none past the end of a store of so many sectors.
fn block_of(places: &[u32; 140], sectors: u32, index: u32) -> u32
    requires { index < 138 }
    ensures block { body_at places.now index < sectors → result ≡ body_at places.now index }
    ensures within { result ≢ 0 → result < sectors }
{
    let place = if index < 10 { index } else { index + 1 };
    let block = places[place as usize];
    if block < sectors { block } else { 0 }
}

/// Reads sector `index` of a directory, by the 140 blocks of its inode. One that the store hasn't has empty slots.
pub(crate) fn slot_sector<S: Stable>(
    store: &mut S,
    places: &[u32; 140],
    index: u32,
) -> Result<[u8; 512], Failed>
    requires { index < 138 }
    ensures done { S.tells → body_at places.now index ≢ 0 → body_at places.now index < S.sector_count store.old → IfOk result (λ bytes. bytes ≡ sector_at (S.image store.old) (body_at places.now index)) }
    ensures cause { HasCause (S.faults store.old) (S.faults store.new) result }
    ensures looked { Looked S.Stable store.old store.new }
{
    let block = block_of(places, store.sectors(), index);
    sector_or_hole(store, block)
}
