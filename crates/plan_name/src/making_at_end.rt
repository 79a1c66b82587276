// A new file at the end of its directory.

ghost use Rattle.std.specs.Prelude.{◌≡◌, ◌≢◌, ◌<◌, ◌≤◌, ℕ, List, [], length, IfOk, All};
ghost use Rattle.files_model.specs.Files.{Node};
ghost use Rattle.files_model.specs.Names.{new_file};
ghost use Rattle.files_model.specs.Torn.{Asked};
ghost use Rattle.plan_name.specs.Created.{IsHandleReply};
ghost use Rattle.plan_name.specs.Creating.{FitsAtEnd, IsPlannedMaking, MapWithin, made_answer, Builds};
ghost use Rattle.v7_map.specs.Frame.{Place, frame};
ghost use Rattle.v7_map.specs.Image.{inode_sector};
ghost use Rattle.v7_map.specs.Weak.{IsStrong};
ghost use Rattle.v7_strokes.specs.Inodes.{BlocksFit};

use crate::creating_puts::{Entry, Longer, add_at_end};
use crate::making::{Spot, handle_reply, next_inode};
use files_model::{Cred, Name, Reply, Sattr};
use stable::{Failed, Plan, Stable};
use v7_strokes::slot_of;

/// Plans a new file of this i-number at the end of its directory (RFC 1094 2.2.10): its inode, the slot, the block of addresses if it changes, and the
/// directory's inode, which is longer then. Answers its handle and attributes. Nothing is put.
pub fn make_at_end<S: Stable>(
    store: &mut S,
    plan: &mut Plan,
    ino: u32,
    spot: &Spot,
    longer: &Longer,
    name: &Name,
    wanted: &Sattr,
    cred: &Cred,
    now: u32,
) -> Result<Reply, Failed>
    requires plan { (plan.old.puts ≡ []) × (4 ≤ plan.old.room) }
    requires number { (ino ≢ 0) × (ino < 65536) }
    requires within { (inode_sector ino < S.sector_count store.old) × (inode_sector spot.now.directory.ino < S.sector_count store.old) × (spot.now.sector < S.sector_count store.old) × (2 ≤ spot.now.sector) }
    requires longer { MapWithin (S.sector_count store.old) longer.now × BlocksFit longer.now.blocks }
    requires named { (length name.now ≤ 14) × All (λ byte. byte ≢ 0) name.now }
    ensures planned { S.tells → IsStrong (frame (S.image store.old)) → (asked : Asked) (d : Node) (target : Place → ℕ) (new : List ℕ) → FitsAtEnd (S.image store.old) asked now spot.now.directory.ino ino spot.now.index spot.now.sector longer.now name.now wanted.now cred.now d target new → IfOk result (λ r. IsPlannedMaking (S.image store.old) asked now ino new plan.new.puts × (r ≡ made_answer (S.image store.old) ino (new_file wanted.now cred.now now))) }
    ensures built { Builds S.Stable store.old store.new 4 plan.old plan.new result }
    ensures form { IfOk result IsHandleReply }
{
    let inode = next_inode(store, plan, ino, wanted, cred, now)?;
    let entry = Entry {
        directory: spot.directory.ino,
        index: spot.index,
        sector: spot.sector,
        slot: slot_of(ino as u16, name.bytes()),
    };
    add_at_end(store, plan, ino, &inode, &entry, longer, now)?;
    Ok(handle_reply(ino, &inode))
}
