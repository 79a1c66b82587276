// The plan of a RENAME.

ghost use Rattle.std.specs.Prelude.{IfOk};
ghost use Rattle.files_model.specs.declared.call.Call.TheVariants.{Rename};
ghost use Rattle.plan_name.specs.Freeing.{IsDoneReply};
ghost use Rattle.plan_name.specs.Planned.{IsPlannedCall, HasShape, TakesOnly};
ghost use Rattle.plan_rename.specs.Renames.{JudgesRename, JudgedWithin};
ghost use Rattle.rename_puts.specs.Renamed.{Renaming, asked_of};
ghost use Rattle.v7_map.specs.Frame.{frame};
ghost use Rattle.v7_map.specs.Weak.{IsStrong};
ghost use Rattle.v7_sets.specs.Sets.{AreSetsOf};

use crate::judging::{Ends, Judged, judge_rename};
use crate::lengthening::put_longer;
use crate::putting::{put_move, put_new_name, put_replacement};
use files_model::{Cred, FileId, Name, Reply, Stat};
use plan_file::PlanFault;
use plan_name::{Planned, refused, unchanged};
use stable::Stable;
use std::alloc::Global;
use v7_read::find;
use v7_sets::Sets;

// Plans what a RENAME was judged to.
fn put_judged<S: Stable>(
    alloc: Global,
    store: &mut S,
    sets: &mut Sets,
    judged: &Judged,
    now: u32,
) -> Result<Planned, PlanFault>
    requires within { JudgedWithin (S.sector_count store.old) judged.now }
    ensures planned { S.tells → IsStrong (frame (S.image store.old)) → AreSetsOf (S.image store.old) sets.old.blocks sets.old.inodes → (call : Renaming) → JudgesRename (S.image store.old) call now judged.now → IfOk result (λ r. IsPlannedCall (S.image store.old) (asked_of call) now sets.new r) }
    ensures shape { HasShape S.Stable store.old store.new 5 IsDoneReply result }
    ensures takes { TakesOnly sets.old sets.new result }
{
    match judged {
        Judged::Refused(status) => Ok(refused(alloc, *status)),
        Judged::Unchanged => Ok(unchanged(alloc, Reply::Done)),
        Judged::Names(place, slot) => put_new_name(alloc, store, place, slot, now),
        Judged::Moves(moved) => put_move(alloc, store, moved, now),
        Judged::Replaces(moved, lost, inode) => {
            put_replacement(alloc, store, moved, lost, inode, now)
        }
        Judged::Lengthens(growing) => put_longer(alloc, store, sets, growing, now),
    }
}

/// Plans a RENAME (RFC 1094 2.2.12): STALE, the refusals of its directories and names, NOENT, no change where both names are of one node, EXIST for a
/// directory onto a name that stands, PERM for one to another parent, ISDIR for a file onto a directory, ACCES, FBIG, NOSPC. The new slot comes before the
/// old one is emptied, so that a crash leaves both names, or one of them; one put where both stand in one sector. Then come the inodes of the directories
/// with their times, and of a node that was replaced, which ends with its last name, in rising number. Nothing is put. All memory that the plan needs is
/// taken here, room for five puts at most. What a directory takes that gets longer leaves the sets of what is free; after a fault they are as they were.
/// What is freed may go back to them once the whole plan is put, and not before.
pub fn plan_rename<S: Stable>(
    alloc: Global,
    store: &mut S,
    sets: &mut Sets,
    from: FileId,
    name: &Name,
    to: FileId,
    new_name: &Name,
    cred: &Cred,
    now: u32,
) -> Result<Planned, PlanFault>
    ensures planned { S.tells → IsStrong (frame (S.image store.old)) → AreSetsOf (S.image store.old) sets.old.blocks sets.old.inodes → IfOk result (λ r. IsPlannedCall (S.image store.old) (Rename from name.now to new_name.now, cred.now) now sets.new r) }
    ensures shape { HasShape S.Stable store.old store.new 5 IsDoneReply result }
    ensures takes { TakesOnly sets.old sets.new result }
{
    let Some(from_found) = find(store, from)? else {
        return Ok(refused(alloc, Stat::Stale));
    };
    let Some(to_found) = find(store, to)? else {
        return Ok(refused(alloc, Stat::Stale));
    };
    let ends = Ends {
        from,
        from_found,
        to,
        to_found,
    };
    let judged = judge_rename(store, sets, &ends, name, new_name, cred)?;
    put_judged(alloc, store, sets, &judged, now)
}
