// The puts of a RENAME onto a name that stands.

ghost use Rattle.std.specs.Prelude.{◌≡◌, ◌<◌, ◌≤◌, [], OnOk};
ghost use Rattle.plan_name.specs.Creating.{Builds};
ghost use Rattle.rename_puts.specs.Renamed.{Renaming, asked_of, ReplacesName, IsPlannedReplacing};
ghost use Rattle.rename_puts.specs.Slots.{MovedWithin};
ghost use Rattle.v7_map.specs.Frame.{frame};
ghost use Rattle.v7_map.specs.Image.{inode_sector};
ghost use Rattle.v7_map.specs.Weak.{IsStrong};

use crate::slots::{Moved, add_moved};
use crate::times::{add_timed, after, before};
use stable::{Failed, Plan, Stable};
use v7_strokes::add_unlinked;

/// A node that loses a name, and whether that is its last one.
#[derive(Clone, Copy)]
pub struct Lost {
    pub node: u32,
    pub last: bool,
}

/// Adds the puts of a RENAME onto a name that stands (RFC 1094 2.2.12): the new slot's sector, the old slot's, one put where both are the same, and the
/// inodes of the directories with their times and of the replaced node, which ends with its last name, in rising number; inodes of one sector that follow
/// each other are one put. Nothing is put.
pub fn add_replacement<S: Stable>(
    store: &mut S,
    plan: &mut Plan,
    moved: &Moved,
    lost: &Lost,
    now: u32,
) -> Result<(), Failed>
    requires empty { plan.old.puts ≡ [] }
    requires room { 5 ≤ plan.old.room }
    requires within { MovedWithin (S.sector_count store.old) moved.now }
    requires node { inode_sector lost.now.node < S.sector_count store.old }
    ensures planned { S.tells → IsStrong (frame (S.image store.old)) → (call : Renaming) → (x : ReplacesName (S.image store.old) call now moved.now lost.now) → OnOk result (IsPlannedReplacing (S.image store.old) (asked_of call) now lost.now.node x.replaced plan.new.puts) }
    ensures built { Builds S.Stable store.old store.new 5 plan.old plan.new result }
{
    add_moved(store, plan, moved)?;
    let first = before(moved.old.directory, moved.new.directory, lost.node);
    add_timed(store, plan, &first, now)?;
    let _node = add_unlinked(store, plan, lost.node, lost.last, now)?;
    let last = after(moved.old.directory, moved.new.directory, lost.node);
    add_timed(store, plan, &last, now)?;
    Ok(())
}
