// The entries of a directory.

ghost use Rattle.std.specs.Prelude.{◌≡◌, ◌≤◌, ◌+◌, IfOk, IsErrOf};
ghost use Rattle.std.specs.List.{sum_by};
ghost use Rattle.files_model.specs.ReadingRows.{entry_size};
ghost use Rattle.stable.specs.Counts.{Rose};
ghost use Rattle.stable.specs.Looked.{Looked};
ghost use Rattle.v7_entries.specs.Bodies.{HasBody, slots_at};
ghost use Rattle.v7_contents.specs.Answers.{entries_past};
ghost use Rattle.v7_contents.specs.Listings.{IsListing};

use crate::fault::ReadFault;
use crate::page::Page;
use crate::slots::{add_slots, slot_sector};
use files_model::Entries;
use stable::Stable;
use std::alloc::Global;
use v7_layout::Inode;
use v7_map::SIZE_LIMIT;
use v7_read::read_places;

/// Entries of a directory in the order of their slots, and whether no used slot is left after them.
#[derive(Drop)]
pub struct Listing {
    pub list: Entries,
    pub end: bool,
}

// The entries of a page, and whether it left none.
fn listing_of(page: Page, end: bool) -> Listing
    ensures { result ≡ record { list = page.list.items; end = end } }
{
    Listing {
        list: Entries::new(page.list),
        end,
    }
}

/// Lists the entries of a directory from slot number `cookie` on, as many as a reply of `count` bytes takes (RFC 1094 2.2.17): the first, and those
/// after it that fit into `count` bytes, or 8,192. Each sector from there on is read at most once, and the block of addresses once; a sector that
/// the store hasn't has no entries. Memory is taken before it reads. Nothing is changed.
pub fn list_entries<S: Stable>(
    alloc: Global,
    store: &mut S,
    inode: &Inode,
    cookie: u32,
    count: u32,
) -> Result<Listing, ReadFault>
    ensures listed { S.tells → HasBody (S.image store.old) inode.now → IfOk result (λ listing. IsListing (entries_past (slots_at (S.image store.old) inode.now) cookie) count listing) }
    ensures fits { IfOk result (λ listing. 12 + sum_by entry_size listing.list ≤ 8192) }
    ensures cause { IsErrOf result ReadFault.Failed → Rose (S.faults store.old) (S.faults store.new) }
    ensures looked { Looked S.Stable store.old store.new }
{
    let slots = inode.size.min(SIZE_LIMIT) / 16;
    let mut page = Page::new(alloc, count, slots.saturating_sub(cookie))?;
    if slots <= cookie {
        return Ok(listing_of(page, true));
    }
    let places = read_places(store, inode)?;
    for index in cookie / 32..slots.div_ceil(32) {
        let bytes = slot_sector(store, &places, index)?;
        let from = cookie.max(32 * index);
        let end = slots.min(32 * index + 32);
        if !add_slots(&mut page, &bytes, from, end)? {
            return Ok(listing_of(page, false));
        }
    }
    Ok(listing_of(page, true))
}
