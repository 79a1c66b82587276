// Entries that are gathered for one reply.

ghost use Rattle.std.specs.Prelude.{◌≡◌, ◌≤◌, ◌+◌, ◌-◌, ◌*◌, ◌/◌, ℕ, List, [], ◌∷◌, min, length, IfOk, OnOk};
ghost use Rattle.files_model.specs.declared.entries.Entry.{Entry};
ghost use Rattle.files_model.specs.ReadingRows.{entry_bytes_of, entry_size};
ghost use Rattle.v7_contents.specs.Pages.{GoesOn, IsOpen, FitsReply};

use files_model::{Entry, NoMemory};
use std::alloc::Global;

/// The most bytes of a reply, with those of its status and its end (RFC 1094 2.2.17).
const MOST_BYTES: u32 = 8192;

/// How many bytes are for the status and the end.
const ENDS: u32 = 12;

/// Entries for one reply, and how many bytes are left for more.
#[derive(Drop)]
pub(crate) struct Page {
    pub(crate) list: Vec<Entry>,
    pub(crate) room: u32,
}

// How many bytes an entry takes: four words, and its name padded to words.
fn size_of(entry: &Entry) -> u32
    ensures { result ≡ entry_size entry.now }
{
    16 + (entry.name.bytes().len() as u32).div_ceil(4) * 4
}

impl Page {
    /// An empty page for a reply of so many bytes, with memory for at most so many entries.
    pub(crate) fn new(alloc: Global, count: u32, entries: u32) -> Result<Page, NoMemory>
        ensures open { (left : List Entry) → IfOk result (λ page. IsOpen (entry_bytes_of count) left page left) }
        ensures fits { IfOk result FitsReply }
    {
        let room = count.min(MOST_BYTES).saturating_sub(ENDS);
        let list = Vec::with_capacity(alloc, entries.min(room / 16 + 1) as usize)?;
        Ok(Page { list, room })
    }

    /// Takes the next entry, and tells that it did; a page with entries leaves one that doesn't fit.
    pub(crate) fn add(&mut self, entry: Entry) -> Result<bool, NoMemory>
        requires { length entry.name ≤ 14 }
        ensures goes_on { (room : ℕ) (left rest : List Entry) → IsOpen room left self.old (entry ∷ rest) → IfOk result (λ added. GoesOn added room left self.new rest) }
        ensures fits { FitsReply self.old → OnOk result (FitsReply self.new) }
    {
        let size = size_of(&entry);
        if !self.list.is_empty() && self.room < size {
            return Ok(false);
        }
        self.list.push(entry)?;
        self.room = self.room.saturating_sub(size);
        Ok(true)
    }
}
