// Bytes of a body.

ghost use Rattle.std.specs.Prelude.{◌≡◌, ◌≢◌, ℕ, get_or, ◌<◌, ◌≤◌, ◌+◌, ◌*◌, ◌-◌, ◌++◌, min, max, take, drop, vec_len, IfOk, OnOk, IsErrOf};
ghost use Rattle.files_model.specs.Space.{size_limit};
ghost use Rattle.plan_file.specs.Contents.{old_content};
ghost use Rattle.plan_file.specs.Places.{AreWithin};
ghost use Rattle.stable.specs.Counts.{Rose};
ghost use Rattle.stable.specs.Looked.{Looked};
ghost use Rattle.files_model.specs.declared.attributes.FileId.{FileId};
ghost use Rattle.v7_read.specs.Found.{IsFile};
ghost use Rattle.v7_map.specs.Frame.{frame};
ghost use Rattle.v7_map.specs.Image.{IsImage};
ghost use Rattle.v7_map.specs.Stored.{sector_in, read_bytes};
ghost use Rattle.v7_map.specs.Weak.{IsStrong};

use crate::fault::ReadFault;
use plan_file::{Places, file_places};
use stable::Stable;
use std::alloc::Global;
use v7_layout::Inode;
use v7_map::{clip, sectors_of};
use v7_read::{Found, sector_or_hole};

/// The most bytes of one read (RFC 1094 2.2.7).
const MOST_READ: u32 = 8192;

// Adds those bytes of sector `index` of a body of this size, whose block is at an address, none at 0, that stand from one place of the body on and
// before another.
fn add_part<S: Stable>(
    store: &mut S,
    size: u32,
    address: u32,
    index: u32,
    from: u32,
    end: u32,
    bytes: &mut Vec<u8>,
) -> Result<(), ReadFault>
    requires stands { address ≢ 0 → address < S.sector_count store.old }
    requires starts { from < 512 * index + 512 }
    requires ends { 512 * index < end }
    requires some { from ≤ end }
    ensures added { S.tells → OnOk result (bytes.new.items ≡ bytes.old.items ++ take (min end (512 * index + 512) - max from (512 * index)) (drop (max from (512 * index) - 512 * index) (old_content (S.image store.old) size index address))) }
    ensures longer { OnOk result (vec_len bytes.new ≡ vec_len bytes.old + (min end (512 * index + 512) - max from (512 * index))) }
    ensures cause { IsErrOf result ReadFault.Failed → Rose (S.faults store.old) (S.faults store.new) }
    ensures looked { Looked S.Stable store.old store.new }
{
    let start = u64::from(index) * 512;
    let mut sector = sector_or_hole(store, address)?;
    clip(size, index, &mut sector);
    let skipped = u64::from(from).saturating_sub(start) as usize;
    let kept = (u64::from(end) - start).min(512) as usize;
    bytes.extend_from_slice(&sector[skipped..kept])?;
    Ok(())
}

// Reads at most so many bytes of a body with these places from an offset on, none past the size, and at most 8,192. Memory is taken before it reads.
fn read_body<S: Stable>(
    alloc: Global,
    store: &mut S,
    inode: &Inode,
    places: &Places,
    offset: u32,
    count: u32,
) -> Result<Vec<u8>, ReadFault>
    requires size { inode.now.size ≤ size_limit }
    requires within { AreWithin (min (S.sector_count store.old) 1048576) places.now }
    ensures read { S.tells → IsImage (S.image store.old) → ((k : ℕ) → k < 138 → get_or places.now.body k 0 ≡ sector_in (S.image store.old) inode.now k) → IfOk result (λ bytes. bytes.items ≡ read_bytes (S.image store.old) inode.now offset count) }
    ensures few { IfOk result (λ bytes. vec_len bytes ≤ min count 8192) }
    ensures cause { IsErrOf result ReadFault.Failed → Rose (S.faults store.old) (S.faults store.new) }
    ensures looked { Looked S.Stable store.old store.new }
{
    let most = count.min(MOST_READ);
    let end = offset.saturating_add(most).min(inode.size);
    let mut bytes = Vec::with_capacity(alloc, most as usize)?;
    if offset >= end {
        return Ok(bytes);
    }
    let first = offset / 512;
    let past = sectors_of(end);
    for index in first..past {
        let address = places.body[index as usize];
        add_part(store, inode.size, address, index, offset, end, &mut bytes)?;
    }
    Ok(bytes)
}

/// Reads at most so many bytes of a file or link from an offset on, none past its size, and at most 8,192 (RFC 1094 2.2.7). Each of its sectors is
/// read at most once, and its block of addresses once. Nothing is changed.
pub fn read_content<S: Stable>(
    alloc: Global,
    store: &mut S,
    found: &Found,
    offset: u32,
    count: u32,
) -> Result<Vec<u8>, ReadFault>
    requires { found.now.inode.size ≤ size_limit }
    ensures read { S.tells → IsStrong (frame (S.image store.old)) → (file : FileId) → IsFile (S.image store.old) file found.now → IfOk result (λ bytes. bytes.items ≡ read_bytes (S.image store.old) found.now.inode offset count) }
    ensures few { IfOk result (λ bytes. vec_len bytes ≤ min count 8192) }
    ensures cause { IsErrOf result ReadFault.Failed → Rose (S.faults store.old) (S.faults store.new) }
    ensures looked { Looked S.Stable store.old store.new }
{
    let places = file_places(store, &found.inode)?;
    read_body(alloc, store, &found.inode, &places, offset, count)
}
