// The plan of a CREATE whose name is there.

ghost use Rattle.std.specs.Prelude.{◌≡◌, ℕ, List, Some, IfOk, IsErrOf};
ghost use Rattle.files_model.specs.Files.{Node};
ghost use Rattle.files_model.specs.Names.{handle_of, size_alone};
ghost use Rattle.files_model.specs.declared.attributes.FileId.{FileId};
ghost use Rattle.files_model.specs.declared.attributes.Sattr.{Sattr};
ghost use Rattle.files_model.specs.declared.call.Call.TheVariants.{Create};
ghost use Rattle.name_plans.specs.Standing.{StandsAlready, with_handle};
ghost use Rattle.plan_file.specs.Set.{CanBeSet};
ghost use Rattle.plan_file.specs.declared.fault.PlanFault.TheVariants as fault;
ghost use Rattle.plan_name.specs.Created.{IsHandleReply};
ghost use Rattle.plan_name.specs.Creations.{IsTakenName};
ghost use Rattle.plan_name.specs.Planned.{IsPlannedCall};
ghost use Rattle.stable.specs.Counts.{Rose};
ghost use Rattle.stable.specs.Looked.{Looked};
ghost use Rattle.v7_map.specs.Frame.{frame};
ghost use Rattle.v7_map.specs.View.{view};
ghost use Rattle.v7_map.specs.Weak.{IsStrong};
ghost use Rattle.v7_sets.specs.Sets.{AreSetsOf};
ghost use Rattle.v7_sets.specs.declared.sets.Sets.{Sets};

use crate::names::standing_refusal;
use crate::planned::{Freed, Planned, refused, unchanged};
use files_model::{Cred, FileId, Reply, Sattr, Stat};
use plan_file::{PlanFault, plan_setattr};
use stable::Stable;
use std::alloc::Global;
use v7_entries::read_inode;
use v7_map::attributes_of;

// A size alone is set.
fn size_alone(size: u32) -> Sattr
    ensures { result ≡ size_alone size }
{
    Sattr {
        mode: None,
        uid: None,
        gid: None,
        size: Some(size),
        atime: None,
        mtime: None,
    }
}

// The attributes of a file as an answer that has its handle.
fn with_handle(file: FileId, reply: Reply) -> Reply
    ensures { result ≡ with_handle file reply }
{
    match reply {
        Reply::Attr(attr) => Reply::Handle { file, attr },
        other => other,
    }
}

/// Plans a CREATE with a set size whose name a regular file has, as a SETATTR of that size alone (RFC 1094 2.2.10, 2.2.3): ACCES where the caller may not
/// write the file, FBIG above 70,656 bytes. It answers the file's handle and attributes. Nothing is put. The blocks that are freed may go back to the
/// sets once the whole plan is put, and not before.
pub fn plan_standing<S: Stable>(
    alloc: Global,
    store: &mut S,
    file: FileId,
    size: u32,
    cred: &Cred,
    now: u32,
) -> Result<Planned, PlanFault>
    ensures planned { S.tells → IsStrong (frame (S.image store.old)) → (dir : FileId) (name : List ℕ) (wanted : Sattr) (d : Node) (k : ℕ) (n : Node) → StandsAlready (view (S.image store.old)) dir name wanted d k file.ino n → file ≡ handle_of (view (S.image store.old)) file.ino → wanted.size ≡ Some size → (sets : Sets) → AreSetsOf (S.image store.old) sets.blocks sets.inodes → IfOk result (λ r. IsPlannedCall (S.image store.old) (Create dir name wanted, cred.now) now sets r) }
    ensures fits { IfOk result (λ r. CanBeSet (S.sector_count store.old) 2 r.plan) }
    ensures form { IfOk result (λ r. IsHandleReply r.reply) }
    ensures cause { IsErrOf result fault.Failed → Rose (S.faults store.old) (S.faults store.new) }
    ensures looked { Looked S.Stable store.old store.new }
{
    let set = size_alone(size);
    let planned = plan_setattr(alloc, store, file, &set, cred, now)?;
    Ok(Planned {
        plan: planned.plan,
        reply: with_handle(file, planned.reply),
        freed: Freed {
            blocks: planned.freed,
            inode: None,
        },
    })
}

/// Plans a CREATE whose name this i-number has (RFC 1094 2.2.10): EXIST where it isn't that of a regular file, else with a set size as a SETATTR of that
/// size, and without one nothing. It answers the file's handle and attributes. Nothing is put. The blocks that are freed may go back to the sets once
/// the whole plan is put, and not before.
pub fn plan_standing_name<S: Stable>(
    alloc: Global,
    store: &mut S,
    ino: u32,
    wanted: &Sattr,
    cred: &Cred,
    now: u32,
) -> Result<Planned, PlanFault>
    ensures planned { S.tells → IsStrong (frame (S.image store.old)) → (dir : FileId) (name : List ℕ) → IsTakenName (S.image store.old) dir name wanted.now ino → (sets : Sets) → AreSetsOf (S.image store.old) sets.blocks sets.inodes → IfOk result (λ r. IsPlannedCall (S.image store.old) (Create dir name wanted.now, cred.now) now sets r) }
    ensures fits { IfOk result (λ r. CanBeSet (S.sector_count store.old) 2 r.plan) }
    ensures form { IfOk result (λ r. IsHandleReply r.reply) }
    ensures cause { IsErrOf result fault.Failed → Rose (S.faults store.old) (S.faults store.new) }
    ensures looked { Looked S.Stable store.old store.new }
{
    let read = read_inode(store, ino)?;
    let Some(inode) = read else {
        return Ok(refused(alloc, Stat::Noent));
    };
    let attr = attributes_of(ino, &inode);
    match standing_refusal(attr.kind) {
        Some(status) => return Ok(refused(alloc, status)),
        None => {}
    }
    let file = FileId {
        ino,
        generation: inode.generation,
    };
    match wanted.size {
        Some(size) => plan_standing(alloc, store, file, size, cred, now),
        None => Ok(unchanged(alloc, Reply::Handle { file, attr })),
    }
}
