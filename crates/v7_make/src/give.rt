// Blocks are given back to a chain.

ghost use Rattle.std.specs.Prelude.{◌≡◌, ◌<◌, ◌≤◌, ◌+◌, ℕ, true, get_or, set, IfOk};
ghost use Rattle.index_sets.specs.Free.{is_free};
ghost use Rattle.stable.specs.Counts.{HasCause};
ghost use Rattle.stable.specs.Moments.{LeavesOnly};
ghost use Rattle.stable.specs.States.{SomePuts};
ghost use Rattle.stable.specs.Store.{StaysOpenable};
ghost use Rattle.v7_make.specs.Chains.{HasPlaces, IsGiven, TakesMore, PutsAt, PutsItem, record_puts};

use index_sets::FreeSet;
use stable::{Failed, Stable};
use v7_layout::{Chain, Record};

/// How many blocks a record has at most.
const MOST: u16 = 50;

/// The record of one block; 0 is the end of a chain.
pub fn single(block: u32) -> Chain
    ensures count { result.s_nfree ≡ 1 }
    ensures first { get_or result.s_free 0 0 ≡ block }
    ensures unused { (k : ℕ) → 1 ≤ k → get_or result.s_free k 0 ≡ 0 }
{
    let mut s_free = [0; 50];
    s_free[0] = block;
    Chain { s_nfree: 1, s_free }
}

// The record with one block more.
fn pushed(chain: &Chain, block: u32) -> Chain
    requires { chain.now.s_nfree < 50 }
    ensures count { result.s_nfree ≡ chain.now.s_nfree + 1 }
    ensures listed { result.s_free ≡ set chain.now.s_free chain.now.s_nfree block }
{
    let mut s_free = chain.s_free;
    s_free[chain.s_nfree as usize] = block;
    Chain {
        s_nfree: chain.s_nfree + 1,
        s_free,
    }
}

// Gives a block back: a full record is written into it, and a new one begins.
fn give_back<S: Stable>(store: &mut S, chain: &Chain, block: u32) -> Result<Chain, Failed>
    requires place { block < S.sector_count store.old }
    requires past { S.tells → 2 ≤ block }
    requires places { HasPlaces chain.now }
    ensures done { S.tells → IfOk result (λ after. TakesMore (S.image store.old) chain.now (S.image store.new) after block true) }
    ensures given { IfOk result (λ after. IsGiven true chain.now after) }
    ensures crash { LeavesOnly S.moment S.left_since store.old store.new (PutsAt block (S.image store.old)) }
    ensures opens { S.tells → StaysOpenable S.opens_since S.moment store.old store.new }
    ensures cause { HasCause (S.faults store.old) (S.faults store.new) result }
    ensures sectors { S.sector_count store.new ≡ S.sector_count store.old }
    ensures snapshot { SomePuts (record_puts true chain.now) (S.faults store.old) (S.faults store.new) (S.snapshot_of store.old) (S.snapshot_of store.new) }
{
    if chain.s_nfree < MOST {
        return Ok(pushed(chain, block));
    }
    let mut bytes = [0; 512];
    chain.write(&mut bytes);
    store.put(block, &bytes)?;
    Ok(single(block))
}

/// Gives a block back, if it is one of the set.
pub fn give_item<S: Stable>(
    store: &mut S,
    blocks: &FreeSet,
    chain: &Chain,
    block: u32,
) -> Result<Chain, Failed>
    requires place { is_free blocks.now block ≡ true → block < S.sector_count store.old }
    requires past { S.tells → is_free blocks.now block ≡ true → 2 ≤ block }
    requires places { HasPlaces chain.now }
    ensures done { S.tells → IfOk result (λ after. TakesMore (S.image store.old) chain.now (S.image store.new) after block (is_free blocks.now block)) }
    ensures given { IfOk result (λ after. IsGiven (is_free blocks.now block) chain.now after) }
    ensures crash { LeavesOnly S.moment S.left_since store.old store.new (PutsItem blocks.now block (S.image store.old)) }
    ensures opens { S.tells → StaysOpenable S.opens_since S.moment store.old store.new }
    ensures cause { HasCause (S.faults store.old) (S.faults store.new) result }
    ensures sectors { S.sector_count store.new ≡ S.sector_count store.old }
    ensures snapshot { SomePuts (record_puts (is_free blocks.now block) chain.now) (S.faults store.old) (S.faults store.new) (S.snapshot_of store.old) (S.snapshot_of store.new) }
{
    if !blocks.has(block) {
        return Ok(*chain);
    }
    give_back(store, chain, block)
}
