// The puts of a removal.

ghost use Rattle.std.specs.Prelude.{◌≡◌, ◌≤◌, ℕ, List, [], OnOk};
ghost use Rattle.files_model.specs.Files.{Node};
ghost use Rattle.files_model.specs.declared.attributes.FileId.{FileId};
ghost use Rattle.files_model.specs.declared.credential.Cred.{Cred};
ghost use Rattle.v7_map.specs.Frame.{frame};
ghost use Rattle.v7_map.specs.Weak.{IsStrong};
ghost use Rattle.plan_name.specs.Creating.{Builds};
ghost use Rattle.plan_name.specs.Removals.{Takes, IsPlannedRemoval, TakenWithin};

use stable::{Failed, Plan, Stable};
use v7_strokes::{add_slot, add_times, add_unlinked, empty_slot};

/// A name that is taken away: slot `index` of a directory, counted from 0, which stands in this sector, and with it the last name of a node or another.
#[derive(Clone, Copy)]
pub struct Taking {
    pub directory: u32,
    pub index: u32,
    pub sector: u32,
    pub node: u32,
    pub last: bool,
}

/// Adds the puts of a removal: the slot's sector, then the directory's inode with its times, and that of the node, which ends with its last name, in
/// rising number; both are one put where they stand in one sector. Nothing is put.
pub fn add_removal<S: Stable>(
    store: &mut S,
    plan: &mut Plan,
    taking: &Taking,
    now: u32,
) -> Result<(), Failed>
    requires empty { plan.old.puts ≡ [] }
    requires room { 3 ≤ plan.old.room }
    requires within { TakenWithin (S.sector_count store.old) taking.now }
    ensures planned { S.tells → IsStrong (frame (S.image store.old)) → (dir : FileId) (name : List ℕ) (cred : Cred) (d n : Node) → Takes (S.image store.old) dir name cred d n taking.now → OnOk result (IsPlannedRemoval (S.image store.old) dir name cred now n taking.now plan.new.puts) }
    ensures built { Builds S.Stable store.old store.new 3 plan.old plan.new result }
{
    let _slot = add_slot(store, plan, taking.sector, taking.index, &empty_slot())?;
    if taking.directory < taking.node {
        let _times = add_times(store, plan, taking.directory, now)?;
        let _node = add_unlinked(store, plan, taking.node, taking.last, now)?;
        return Ok(());
    }
    let _node = add_unlinked(store, plan, taking.node, taking.last, now)?;
    let _times = add_times(store, plan, taking.directory, now)?;
    Ok(())
}
