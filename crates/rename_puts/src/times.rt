// The times of the directories of a RENAME.

ghost use Rattle.std.specs.Prelude.{◌≡◌, ◌<◌, ◌≤◌, ◌+◌, ℕ, List, true, length, Some, None, min, max, if◌then◌else◌, IfSome, OnOk};
ghost use Rattle.plan_name.specs.Creating.{CanBePut};
ghost use Rattle.plan_name.specs.LayingOut.{one_of};
ghost use Rattle.rename_puts.specs.Times.{listed, TimedWithin, AreInodes, AddsTimes, rising, before, after};
ghost use Rattle.stable.specs.Counts.{HasCause};
ghost use Rattle.stable.specs.Looked.{Looked};
ghost use Rattle.v7_map.specs.Image.{is_inode, inode_sector};
ghost use Rattle.v7_strokes.specs.Merged.{merged};

use stable::{Failed, Plan, Stable};
use v7_strokes::add_times;

/// The directories whose inodes get their times, in this order: two, one or none.
#[derive(Clone, Copy)]
pub(crate) struct Timed {
    pub(crate) first: Option<u32>,
    pub(crate) second: Option<u32>,
}

/// Two directories in rising number.
pub(crate) fn rising(a: u32, b: u32) -> Timed
    ensures { result ≡ rising a b }
{
    Timed {
        first: Some(a.min(b)),
        second: Some(a.max(b)),
    }
}

// This directory, if it is wanted.
fn directory_if(wanted: bool, directory: u32) -> Option<u32>
    ensures { result ≡ (if wanted then Some directory else None) }
{
    if wanted { Some(directory) } else { None }
}

/// Those of two directories, in rising number, whose numbers are below a node's. Where both are one it comes once.
pub(crate) fn before(a: u32, b: u32, node: u32) -> Timed
    ensures { result ≡ before (min a b) (max a b) node }
{
    let (low, high) = (a.min(b), a.max(b));
    let first = directory_if(low < node, low);
    if low < high {
        let second = directory_if(high < node, high);
        return Timed { first, second };
    }
    Timed {
        first,
        second: None,
    }
}

/// Those of two directories, in rising number, whose numbers aren't below a node's. Where both are one it comes once.
pub(crate) fn after(a: u32, b: u32, node: u32) -> Timed
    ensures { result ≡ after (min a b) (max a b) node }
{
    let (low, high) = (a.min(b), a.max(b));
    let first = directory_if(low >= node, low);
    if low < high {
        let second = directory_if(high >= node, high);
        return Timed { first, second };
    }
    Timed {
        first,
        second: None,
    }
}

/// Adds the put of a directory's inode with its times, if there is one.
pub(crate) fn add_one<S: Stable>(
    store: &mut S,
    plan: &mut Plan,
    directory: Option<u32>,
    now: u32,
) -> Result<(), Failed>
    requires room { length plan.old.puts + length (one_of directory) ≤ plan.old.room }
    requires within { IfSome directory (λ d. inode_sector d < S.sector_count store.old) }
    ensures added { S.tells → (most : ℕ) → CanBePut (S.sector_count store.old) most plan.old.puts → IfSome directory (λ d. is_inode (S.image store.old) d ≡ true) → (raw : List (ℕ × List ℕ)) → plan.old.puts ≡ merged raw → OnOk result (AddsTimes (S.image store.old) now (one_of directory) raw plan.new.puts) }
    ensures fits { (most : ℕ) → CanBePut (S.sector_count store.old) most plan.old.puts → OnOk result (CanBePut (S.sector_count store.old) (most + length (one_of directory)) plan.new.puts) }
    ensures few { OnOk result (length plan.new.puts ≤ length plan.old.puts + length (one_of directory)) }
    ensures room { OnOk result (plan.new.room ≡ plan.old.room) }
    ensures cause { HasCause (S.faults store.old) (S.faults store.new) result }
    ensures looked { Looked S.Stable store.old store.new }
{
    match directory {
        Some(ino) => {
            let _times = add_times(store, plan, ino, now)?;
            Ok(())
        }
        None => Ok(()),
    }
}

/// Adds the puts of the inodes of directories with their times now, in order; inodes of one sector that follow each other are one put.
pub(crate) fn add_timed<S: Stable>(
    store: &mut S,
    plan: &mut Plan,
    timed: &Timed,
    now: u32,
) -> Result<(), Failed>
    requires room { length plan.old.puts + length (listed timed.now) ≤ plan.old.room }
    requires within { TimedWithin (S.sector_count store.old) timed.now }
    ensures added { S.tells → (most : ℕ) → CanBePut (S.sector_count store.old) most plan.old.puts → AreInodes (S.image store.old) timed.now → (raw : List (ℕ × List ℕ)) → plan.old.puts ≡ merged raw → OnOk result (AddsTimes (S.image store.old) now (listed timed.now) raw plan.new.puts) }
    ensures fits { (most : ℕ) → CanBePut (S.sector_count store.old) most plan.old.puts → OnOk result (CanBePut (S.sector_count store.old) (most + length (listed timed.now)) plan.new.puts) }
    ensures few { OnOk result (length plan.new.puts ≤ length plan.old.puts + length (listed timed.now)) }
    ensures room { OnOk result (plan.new.room ≡ plan.old.room) }
    ensures cause { HasCause (S.faults store.old) (S.faults store.new) result }
    ensures looked { Looked S.Stable store.old store.new }
{
    add_one(store, plan, timed.first, now)?;
    add_one(store, plan, timed.second, now)?;
    Ok(())
}
