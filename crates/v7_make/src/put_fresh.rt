// A new volume is put.

ghost use Rattle.std.specs.Prelude.{◌≡◌, ◌<◌, ◌≤◌, ◌-◌, OnOk};
ghost use Rattle.stable.specs.Counts.{HasCause};
ghost use Rattle.stable.specs.Moments.{LeavesOnly};
ghost use Rattle.stable.specs.States.{SomePuts};
ghost use Rattle.stable.specs.Store.{StaysOpenable, name_in};
ghost use Rattle.v7_map.specs.Image.{sector_at};
ghost use Rattle.v7_make.specs.Made.{FreshTo, IsNewSuper, IsPut, KeepsButInodes, KeepsOutside};

use crate::made::{fresh_inodes, root_block};
use stable::{Failed, Stable};
use v7_layout::{Record, Super};

/// Puts the sectors of inodes of a new volume, whose root's block is the one after them.
pub fn put_inodes<S: Stable>(store: &mut S, isize: u32, now: u32) -> Result<(), Failed>
    requires place { isize ≤ S.sector_count store.old }
    requires low { 3 ≤ isize }
    requires high { isize ≤ 8193 }
    ensures done { S.tells → OnOk result (FreshTo isize now isize (S.image store.new)) }
    ensures crash { LeavesOnly S.moment S.left_since store.old store.new (KeepsButInodes isize (S.image store.old)) }
    ensures opens { StaysOpenable S.opens_since S.moment store.old store.new }
    ensures cause { HasCause (S.faults store.old) (S.faults store.new) result }
    ensures sectors { S.sector_count store.new ≡ S.sector_count store.old }
    ensures snapshot { SomePuts (isize - 2) (S.faults store.old) (S.faults store.new) (S.snapshot_of store.old) (S.snapshot_of store.new) }
{
    for sector in 2..isize {
        store.put(sector, &fresh_inodes(sector, isize, now))?;
    }
    Ok(())
}

// The super-block of a new volume.
fn new_super(size: u32, isize: u32, name: [u8; 6], now: u32) -> Super
    requires { isize ≤ 8193 }
    ensures { IsNewSuper size isize name now 1 0 0 result }
{
    Super {
        s_isize: isize as u16,
        s_fsize: size,
        s_nfree: 1,
        s_free: [0; 50],
        s_ninode: 0,
        s_inode: [0; 100],
        s_flock: 0,
        s_ilock: 0,
        s_fmod: 1,
        s_ronly: 0,
        s_time: now,
        s_tfree: 0,
        s_tinode: 0,
        s_m: 0,
        s_n: 0,
        s_fname: [0; 6],
        s_fpack: name,
        mark: 1,
    }
}

/// Puts a new volume that has the root alone, without its free chain.
pub fn put_volume<S: Stable>(
    store: &mut S,
    size: u32,
    isize: u32,
    name: [u8; 6],
    now: u32,
) -> Result<(), Failed>
    requires low { 3 ≤ isize }
    requires high { isize ≤ 8193 }
    requires above { isize < size }
    requires most { size ≤ 1048576 }
    requires place { size ≤ S.sector_count store.old }
    ensures done { S.tells → OnOk result (IsPut (S.image store.new) size isize name now) }
    ensures crash { LeavesOnly S.moment S.left_since store.old store.new (KeepsOutside size (S.image store.old)) }
    ensures opens { S.tells → name_in (sector_at (S.image store.old) 1) ≡ name → StaysOpenable S.opens_since S.moment store.old store.new }
    ensures cause { HasCause (S.faults store.old) (S.faults store.new) result }
    ensures sectors { S.sector_count store.new ≡ S.sector_count store.old }
    ensures snapshot { SomePuts isize (S.faults store.old) (S.faults store.new) (S.snapshot_of store.old) (S.snapshot_of store.new) }
{
    put_inodes(store, isize, now)?;
    store.put(isize, &root_block())?;
    let mut bytes = [0; 512];
    new_super(size, isize, name, now).write(&mut bytes);
    store.put(1, &bytes)
}
