// A sector is put where it differs.

ghost use Rattle.std.specs.Prelude.{◌≡◌, ◌<◌, ◌≤◌, [], get_or, set, IfOk, OnOk};
ghost use Rattle.stable.specs.Store.{SectorPut};
ghost use Rattle.v7_mend.specs.Changes.{PutsSome};
ghost use Rattle.v7_mend.specs.Runs.{CountsPuts};

use stable::{Failed, Stable};

/// Puts a sector past the super-block, unless it has these bytes already; `held` is what it has. Answers how many puts it made.
pub fn put_changed<S: Stable>(
    store: &mut S,
    sector: u32,
    held: &[u8; 512],
    bytes: &[u8; 512],
) -> Result<u32, Failed>
    requires place { sector < S.sector_count store.old }
    requires past { 2 ≤ sector }
    requires held { S.tells → held.now ≡ get_or (S.image store.old) sector [] }
    ensures done { S.tells → OnOk result (S.image store.new ≡ set (S.image store.old) sector bytes.now) }
    ensures needed { S.tells → IfOk result (λ count. PutsSome count (S.image store.old) (S.image store.new) sector) }
    ensures puts { CountsPuts S.Stable (SectorPut sector bytes.now (S.image store.old)) 1 store.old store.new result }
{
    if *held == *bytes {
        return Ok(0);
    }
    store.put(sector, bytes)?;
    Ok(1)
}
