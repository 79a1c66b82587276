// The super-block of a volume that is open.
ghost use Rattle.std.specs.Prelude.{◌≡◌, ◌≤◌, OnOk};
ghost use Rattle.stable.specs.Counts.{HasCause};
ghost use Rattle.stable.specs.Moments.{LeavesOnly};
ghost use Rattle.stable.specs.States.{SomePuts};
ghost use Rattle.stable.specs.Store.{StaysOpenable};
ghost use Rattle.v7_map.specs.Frame.{frame};
ghost use Rattle.v7_map.specs.Weak.{IsWeak};
ghost use Rattle.volume.specs.Marks.{IsMarked, MayMark, running};

use stable::{Failed, Stable};
use v7_layout::{Record, Super};
use v7_read::get_sector;

// The super-block of an open volume, put at that second.
fn running(super_block: &Super, now: u32) -> Super
    ensures { result ≡ running super_block.now now }
{
    Super {
        s_fmod: 1,
        s_time: now,
        ..*super_block
    }
}

/// Puts the super-block of an open volume. What the volume stands for stays at each moment.
pub fn mark_open<S: Stable>(store: &mut S, now: u32) -> Result<(), Failed>
    requires two { 2 ≤ S.sector_count store.old }
    requires weak { S.tells → IsWeak (frame (S.image store.old)) }
    ensures done { S.tells → OnOk result (IsMarked (S.image store.old) (S.image store.new) now) }
    ensures crash { LeavesOnly S.moment S.left_since store.old store.new (MayMark (S.image store.old) now) }
    ensures opens { S.tells → StaysOpenable S.opens_since S.moment store.old store.new }
    ensures cause { HasCause (S.faults store.old) (S.faults store.new) result }
    ensures sectors { S.sector_count store.new ≡ S.sector_count store.old }
    ensures snapshot { SomePuts 1 (S.faults store.old) (S.faults store.new) (S.snapshot_of store.old) (S.snapshot_of store.new) }
{
    let super_block = Super::read(&get_sector(store, 1)?);
    let after = running(&super_block, now);
    let mut bytes = [0; 512];
    after.write(&mut bytes);
    store.put(1, &bytes)
}
