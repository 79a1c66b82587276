// Sectors as they will be after the puts of a plan.

ghost use Rattle.std.specs.Prelude.{◌≡◌, ◌<◌, ◌==◌, if◌then◌else◌, IfOk, [], get_or};
ghost use Rattle.stable.specs.Counts.{HasCause};
ghost use Rattle.stable.specs.Looked.{Looked};
ghost use Rattle.stable.specs.Puts.{put_all};
ghost use Rattle.v7_strokes.specs.Over.{sector_after};

use stable::{Failed, Plan, Stable};
use v7_read::get_sector;

// What one put leaves of a sector.
fn after_put(put: &(u32, [u8; 512]), sector: u32, bytes: &[u8; 512]) -> [u8; 512]
    ensures { result ≡ (if put.now.0 == sector then put.now.1 else bytes.now) }
{
    if put.0 == sector { put.1 } else { *bytes }
}

// What puts leave of a sector that held these bytes: the last put of it, if there is one.
fn after_puts(puts: &[(u32, [u8; 512])], sector: u32, read: &[u8; 512]) -> [u8; 512]
    ensures { result ≡ sector_after puts.now sector read.now }
{
    let mut bytes = *read;
    for put in puts {
        bytes = after_put(put, sector, &bytes);
    }
    bytes
}

/// Reads a sector as it will be after a plan so far, by one read of the store. Nothing is changed.
pub fn planned_sector<S: Stable>(
    store: &mut S,
    plan: &Plan,
    sector: u32,
) -> Result<[u8; 512], Failed>
    requires { sector < S.sector_count store.old }
    ensures done { S.tells → IfOk result (λ bytes. bytes ≡ get_or (put_all plan.now.puts (S.image store.old)) sector []) }
    ensures cause { HasCause (S.faults store.old) (S.faults store.new) result }
    ensures looked { Looked S.Stable store.old store.new }
{
    let read = get_sector(store, sector)?;
    Ok(after_puts(plan.puts(), sector, &read))
}
