// What a call on names comes to.
ghost use Rattle.std.specs.Prelude.{◌≡◌, [], None};
ghost use Rattle.files_model.specs.declared.reply.Reply.TheVariants as reply;

use arrayvec::ArrayVec;
use files_model::{Reply, Stat};
use stable::Plan;
use std::alloc::Global;

/// The blocks and the i-number that go back to the sets of what is free once a whole plan is put, and not before.
#[derive(Drop)]
pub struct Freed {
    pub blocks: ArrayVec<u32, 139>,
    pub inode: Option<u32>,
}

/// What a call comes to: a plan, which is empty where it is refused, its reply, and what is free once the whole plan is put.
#[derive(Drop)]
pub struct Planned {
    pub plan: Plan,
    pub reply: Reply,
    pub freed: Freed,
}

/// Nothing is freed.
pub fn none_freed() -> Freed
    ensures blocks { result.blocks.items ≡ [] }
    ensures inode { result.inode ≡ None }
{
    Freed {
        blocks: ArrayVec::new(),
        inode: None,
    }
}

/// Nothing is planned, and this is the answer.
pub fn unchanged(alloc: Global, answer: Reply) -> Planned
    ensures plan { result.plan ≡ record { puts = []; room = 0 } }
    ensures reply { result.reply ≡ answer }
    ensures blocks { result.freed.blocks.items ≡ [] }
    ensures inode { result.freed.inode ≡ None }
{
    Planned {
        plan: Plan::empty(alloc),
        reply: answer,
        freed: none_freed(),
    }
}

/// Nothing is planned, and the call is refused so.
pub fn refused(alloc: Global, status: Stat) -> Planned
    ensures plan { result.plan ≡ record { puts = []; room = 0 } }
    ensures reply { result.reply ≡ reply.Refused status }
    ensures blocks { result.freed.blocks.items ≡ [] }
    ensures inode { result.freed.inode ≡ None }
{
    unchanged(alloc, Reply::Refused(status))
}
