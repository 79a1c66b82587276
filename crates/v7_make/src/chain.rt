// The free chain is written.

ghost use Rattle.std.specs.Prelude.{◌≡◌, ◌<◌, ◌/◌, ℕ, true, IfOk, length};
ghost use Rattle.index_sets.specs.Free.{is_free};
ghost use Rattle.stable.specs.Counts.{HasCause};
ghost use Rattle.stable.specs.Moments.{LeavesOnly};
ghost use Rattle.stable.specs.States.{SomePuts};
ghost use Rattle.stable.specs.Store.{StaysOpenable};
ghost use Rattle.v7_make.specs.Chains.{AreIdle, ChainedFrom, HasPlaces, KeepsVolume};
ghost use Rattle.v7_make.specs.Sets.{free_among};

use crate::give::{give_item, single};
use index_sets::FreeSet;
use stable::{Failed, Stable};
use v7_layout::Chain;

/// Writes the records of a chain of exactly these blocks, from the highest to the lowest. Answers the record that comes into the super-block.
pub fn write_records<S: Stable>(store: &mut S, blocks: &FreeSet) -> Result<Chain, Failed>
    requires within { (b : ℕ) → is_free blocks.now b ≡ true → b < S.sector_count store.old }
    requires idle { S.tells → AreIdle (S.image store.old) blocks.now }
    ensures done { S.tells → IfOk result (λ chain. ChainedFrom (S.image store.old) (S.image store.new) blocks.now chain 0 (length blocks.now)) }
    ensures places { IfOk result (λ chain. HasPlaces chain) }
    ensures crash { LeavesOnly S.moment S.left_since store.old store.new (KeepsVolume blocks.now (S.image store.old)) }
    ensures opens { S.tells → StaysOpenable S.opens_since S.moment store.old store.new }
    ensures cause { HasCause (S.faults store.old) (S.faults store.new) result }
    ensures sectors { S.sector_count store.new ≡ S.sector_count store.old }
    ensures snapshot { SomePuts (free_among blocks.now 0 (length blocks.now) / 50) (S.faults store.old) (S.faults store.new) (S.snapshot_of store.old) (S.snapshot_of store.new) }
{
    let mut chain = single(0);
    let size = blocks.size();
    for count in 0..size {
        let block = size - 1 - count;
        chain = give_item(store, blocks, &chain, block)?;
    }
    Ok(chain)
}
