// The plans of a RENAME that changes something.

ghost use Rattle.std.specs.Prelude.{◌≡◌, ◌<◌, [], None, IfOk};
ghost use Rattle.files_model.specs.declared.reply.Reply.TheVariants as reply;
ghost use Rattle.plan_name.specs.Freeing.{IsDoneReply};
ghost use Rattle.plan_name.specs.Planned.{IsPlannedCall, HasShape};
ghost use Rattle.rename_puts.specs.Renamed.{Renaming, asked_of, GivesName, MovesName, ReplacesName};
ghost use Rattle.rename_puts.specs.Slots.{PlaceWithin, MovedWithin};
ghost use Rattle.v7_map.specs.Frame.{frame};
ghost use Rattle.v7_map.specs.Image.{inode_at, inode_sector};
ghost use Rattle.v7_map.specs.Weak.{IsStrong};
ghost use Rattle.v7_sets.specs.Sets.{AreSetsOf};
ghost use Rattle.v7_sets.specs.declared.sets.Sets.{Sets};

use files_model::Reply;
use plan_file::PlanFault;
use plan_name::{Freed, Planned, freed_blocks, freed_number, none_freed};
use rename_puts::{Lost, Moved, SlotPlace, add_move, add_new_name, add_replacement};
use stable::{Plan, Stable};
use std::alloc::Global;
use v7_layout::{Inode, Slot};

/// The call is done, and frees nothing.
pub(crate) fn done(plan: Plan) -> Planned
    ensures plan { result.plan ≡ plan }
    ensures reply { result.reply ≡ reply.Done }
    ensures blocks { result.freed.blocks.items ≡ [] }
    ensures inode { result.freed.inode ≡ None }
{
    Planned {
        plan,
        reply: Reply::Done,
        freed: none_freed(),
    }
}

/// Plans a RENAME that gives this slot another name, in the directory where it stands.
pub(crate) fn put_new_name<S: Stable>(
    alloc: Global,
    store: &mut S,
    place: &SlotPlace,
    slot: &Slot,
    now: u32,
) -> Result<Planned, PlanFault>
    requires within { PlaceWithin (S.sector_count store.old) place.now }
    ensures planned { S.tells → IsStrong (frame (S.image store.old)) → (call : Renaming) → GivesName (S.image store.old) call now place.now slot.now → (sets : Sets) → AreSetsOf (S.image store.old) sets.blocks sets.inodes → IfOk result (λ r. IsPlannedCall (S.image store.old) (asked_of call) now sets r) }
    ensures shape { HasShape S.Stable store.old store.new 5 IsDoneReply result }
{
    let mut plan = Plan::new(alloc, 2)?;
    add_new_name(store, &mut plan, place, slot, now)?;
    Ok(done(plan))
}

/// Plans a RENAME that moves a name into an empty slot of another directory.
pub(crate) fn put_move<S: Stable>(
    alloc: Global,
    store: &mut S,
    moved: &Moved,
    now: u32,
) -> Result<Planned, PlanFault>
    requires within { MovedWithin (S.sector_count store.old) moved.now }
    ensures planned { S.tells → IsStrong (frame (S.image store.old)) → (call : Renaming) → MovesName (S.image store.old) call now moved.now → (sets : Sets) → AreSetsOf (S.image store.old) sets.blocks sets.inodes → IfOk result (λ r. IsPlannedCall (S.image store.old) (asked_of call) now sets r) }
    ensures shape { HasShape S.Stable store.old store.new 5 IsDoneReply result }
{
    let mut plan = Plan::new(alloc, 4)?;
    add_move(store, &mut plan, moved, now)?;
    Ok(done(plan))
}

/// Plans a RENAME onto a name that stands, whose node, of this inode, loses it: its blocks and its number are free where that was its last.
pub(crate) fn put_replacement<S: Stable>(
    alloc: Global,
    store: &mut S,
    moved: &Moved,
    lost: &Lost,
    inode: &Inode,
    now: u32,
) -> Result<Planned, PlanFault>
    requires within { MovedWithin (S.sector_count store.old) moved.now }
    requires node { inode_sector lost.now.node < S.sector_count store.old }
    ensures planned { S.tells → IsStrong (frame (S.image store.old)) → (call : Renaming) → ReplacesName (S.image store.old) call now moved.now lost.now → inode.now ≡ inode_at (S.image store.old) lost.now.node → (sets : Sets) → AreSetsOf (S.image store.old) sets.blocks sets.inodes → IfOk result (λ r. IsPlannedCall (S.image store.old) (asked_of call) now sets r) }
    ensures shape { HasShape S.Stable store.old store.new 5 IsDoneReply result }
{
    let mut plan = Plan::new(alloc, 5)?;
    add_replacement(store, &mut plan, moved, lost, now)?;
    let blocks = freed_blocks(store, inode, lost.last)?;
    let freed = Freed {
        blocks,
        inode: freed_number(lost.node, lost.last, inode.generation),
    };
    Ok(Planned {
        plan,
        reply: Reply::Done,
        freed,
    })
}
