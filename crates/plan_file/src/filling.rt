// The puts of a batch before that of the inode.

ghost use Rattle.std.specs.Prelude.{◌≡◌, ◌≢◌, ◌<◌, ◌≤◌, ◌+◌, ◌*◌, ◌-◌, ℕ, ◌++◌, get_or, length, List, true, if◌then◌else◌, IfOk, OnOk, IfSome, IfNone};
ghost use Rattle.std.specs.List.{range_with_len, list_any};
ghost use Rattle.stable.specs.Counts.{HasCause};
ghost use Rattle.stable.specs.Looked.{Looked};
ghost use Rattle.files_model.specs.Batch.{touches};
ghost use Rattle.v7_layout.specs.Numbers.{field};
ghost use Rattle.plan_file.specs.Accepted.{kept_of, spliced_by, covers};
ghost use Rattle.plan_file.specs.Contents.{old_content, content_puts, touched_below, cuts, cut_puts, MapPuts, Fits};
ghost use Rattle.plan_file.specs.Places.{AreWithin};

use crate::accepted::{is_covered, is_touched, write_over};
use crate::places::Places;
use byteorder::{ByteOrder, LittleEndian};
use files_model::{Reply, WriteItem};
use stable::{Failed, Plan, Stable};
use v7_map::clip;
use v7_read::{empty_sector, sector_or_hole};

// Sector `index` of a body of this size whose block is at an address, none at 0.
fn old_sector<S: Stable>(
    store: &mut S,
    address: u32,
    size: u32,
    index: u32,
) -> Result<[u8; 512], Failed>
    requires { address ≢ 0 → address < S.sector_count store.old }
    ensures content { S.tells → IfOk result (λ bytes. bytes ≡ old_content (S.image store.old) size index address) }
    ensures cause { HasCause (S.faults store.old) (S.faults store.new) result }
    ensures looked { Looked S.Stable store.old store.new }
{
    let mut bytes = sector_or_hole(store, address)?;
    clip(size, index, &mut bytes);
    Ok(bytes)
}

// The address that a sector is read at: none where an accepted write gives all its bytes.
fn read_at(address: u32, index: u32, batch: &[WriteItem], replies: &[Reply]) -> u32
    requires { length replies.now ≡ length batch.now }
    ensures { result ≡ (if list_any (covers index) (kept_of batch.now replies.now) then 0 else address) }
{
    if is_covered(batch, replies, index) {
        return 0;
    }
    address
}

// The same sector with what the accepted writes of a batch make of it. It is read only where they leave some of its bytes.
fn new_sector<S: Stable>(
    store: &mut S,
    address: u32,
    size: u32,
    index: u32,
    batch: &[WriteItem],
    replies: &[Reply],
) -> Result<[u8; 512], Failed>
    requires stands { address ≢ 0 → address < S.sector_count store.old }
    requires same { length replies.now ≡ length batch.now }
    ensures content { S.tells → IfOk result (λ bytes. bytes ≡ spliced_by (kept_of batch.now replies.now) index (old_content (S.image store.old) size index address)) }
    ensures cause { HasCause (S.faults store.old) (S.faults store.new) result }
    ensures looked { Looked S.Stable store.old store.new }
{
    let from = read_at(address, index, batch, replies);
    let mut bytes = old_sector(store, from, size, index)?;
    write_over(batch, replies, index, &mut bytes);
    Ok(bytes)
}

/// Adds the touched sectors in rising order, each with its final content.
pub fn add_contents<S: Stable>(
    store: &mut S,
    plan: &mut Plan,
    places: &Places,
    target: &Places,
    size: u32,
    batch: &[WriteItem],
    replies: &[Reply],
) -> Result<(), Failed>
    requires places { AreWithin (S.sector_count store.old) places.now }
    requires to { (k : ℕ) → k < 138 → list_any (touches k) (kept_of batch.now replies.now) ≡ true → (2 ≤ get_or target.now.body k 0) × (get_or target.now.body k 0 < S.sector_count store.old) }
    requires room { length plan.old.puts + touched_below (kept_of batch.now replies.now) 138 ≤ plan.old.room }
    requires same { length replies.now ≡ length batch.now }
    ensures added { S.tells → OnOk result (plan.new.puts ≡ plan.old.puts ++ content_puts (S.image store.old) size places.now.body target.now.body (kept_of batch.now replies.now) (range_with_len 0 138)) }
    ensures fits { OnOk result (Fits (S.sector_count store.old) (touched_below (kept_of batch.now replies.now) 138) plan.old plan.new) }
    ensures cause { HasCause (S.faults store.old) (S.faults store.new) result }
    ensures looked { Looked S.Stable store.old store.new }
{
    for index in 0..138 {
        if !is_touched(batch, replies, index) {
            continue;
        }
        let at = index as usize;
        let bytes = new_sector(store, places.body[at], size, index, batch, replies)?;
        plan.add(target.body[at], &bytes);
    }
    Ok(())
}

// Whether the old size cuts a sector that stands and isn't touched, and the new size is above it.
fn cuts_sector(
    places: &Places,
    size: u32,
    new_size: u32,
    batch: &[WriteItem],
    replies: &[Reply],
) -> bool
    requires within { new_size ≤ 70656 }
    requires same { length replies.now ≡ length batch.now }
    ensures { result ≡ cuts size new_size places.now.body (kept_of batch.now replies.now) }
{
    if new_size <= size {
        return false;
    }
    let index = size / 512;
    if size % 512 == 0 || places.body[index as usize] == 0 {
        return false;
    }
    !is_touched(batch, replies, index)
}

/// Adds the old last sector with zeros past the old size, where that size cuts it, the new one is above, and no write touches it.
pub fn add_cut<S: Stable>(
    store: &mut S,
    plan: &mut Plan,
    places: &Places,
    size: u32,
    new_size: u32,
    batch: &[WriteItem],
    replies: &[Reply],
) -> Result<(), Failed>
    requires places { AreWithin (S.sector_count store.old) places.now }
    requires within { new_size ≤ 70656 }
    requires room { length plan.old.puts < plan.old.room }
    requires same { length replies.now ≡ length batch.now }
    ensures added { S.tells → OnOk result (plan.new.puts ≡ plan.old.puts ++ cut_puts (S.image store.old) size new_size places.now.body (kept_of batch.now replies.now)) }
    ensures fits { OnOk result (Fits (S.sector_count store.old) 1 plan.old plan.new) }
    ensures cause { HasCause (S.faults store.old) (S.faults store.new) result }
    ensures looked { Looked S.Stable store.old store.new }
{
    if !cuts_sector(places, size, new_size, batch, replies) {
        return Ok(());
    }
    let index = size / 512;
    let address = places.body[index as usize];
    let bytes = old_sector(store, address, size, index)?;
    plan.add(address, &bytes);
    Ok(())
}

// The block with the addresses of all but the first ten sectors.
fn map_block(body: &[u32; 138]) -> [u8; 512]
    ensures long { length result ≡ 512 }
    ensures reads { (k : ℕ) → 10 ≤ k → k < 138 → field result (4 * (k - 10)) 4 ≡ get_or body.now k 0 }
{
    let mut bytes = empty_sector();
    LittleEndian::write_u32_into(&body[10..], &mut bytes);
    bytes
}

// The first sector from the eleventh on that has another block than before, if any.
fn first_changed(old: &[u32; 138], new: &[u32; 138]) -> Option<usize>
    ensures found { IfSome result (λ k. (10 ≤ k) × (k < 138) × (get_or new.now k 0 ≢ get_or old.now k 0)) }
    ensures none { IfNone result ((k : ℕ) → 10 ≤ k → k < 138 → get_or new.now k 0 ≡ get_or old.now k 0) }
{
    for index in 10..138 {
        if old[index] != new[index] {
            return Some(index);
        }
    }
    None
}

/// Adds the block of addresses where an address in it changes.
pub fn add_map(plan: &mut Plan, old: &Places, new: &Places)
    requires { length plan.old.puts < plan.old.room }
    ensures added { (maps : List (ℕ × List ℕ)) × (plan.new.puts ≡ plan.old.puts ++ maps) × MapPuts old.now new.now maps }
    ensures fits { (sectors : ℕ) → ((k : ℕ) → 10 ≤ k → k < 138 → get_or new.now.body k 0 ≢ get_or old.now.body k 0 → (2 ≤ new.now.single) × (new.now.single < sectors)) → Fits sectors 1 plan.old plan.new }
{
    match first_changed(&old.body, &new.body) {
        Some(_) => plan.add(new.single, &map_block(&new.body)),
        None => {}
    }
}
