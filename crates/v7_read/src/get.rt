// One sector of a store, by value.

ghost use Rattle.std.specs.Prelude.{◌≡◌, ◌≢◌, ◌<◌, ◌==◌, if◌then◌else◌, [], get_or, IfOk};
ghost use Rattle.files_model.specs.Step.{zeros};
ghost use Rattle.stable.specs.Counts.{HasCause};
ghost use Rattle.stable.specs.Looked.{Looked};

use stable::{Failed, Stable};

/// Reads a sector.
pub fn get_sector<S: Stable>(store: &mut S, sector: u32) -> Result<[u8; 512], Failed>
    requires { sector < S.sector_count store.old }
    ensures done { S.tells → IfOk result (λ bytes. bytes ≡ get_or (S.image store.old) sector []) }
    ensures cause { HasCause (S.faults store.old) (S.faults store.new) result }
    ensures looked { Looked S.Stable store.old store.new }
{
    let mut bytes = [0; 512];
    match store.get(sector, &mut bytes) {
        Ok(()) => Ok(bytes),
        Err(failed) => Err(failed),
    }
}

/// A sector of zeros.
pub fn empty_sector() -> [u8; 512]
    ensures { result ≡ zeros }
{
    [0; 512]
}

/// Reads the sector that stands at an address, zeros where it is 0.
pub fn sector_or_hole<S: Stable>(store: &mut S, address: u32) -> Result<[u8; 512], Failed>
    requires { address ≢ 0 → address < S.sector_count store.old }
    ensures done { S.tells → IfOk result (λ bytes. bytes ≡ (if address == 0 then zeros else get_or (S.image store.old) address [])) }
    ensures cause { HasCause (S.faults store.old) (S.faults store.new) result }
    ensures looked { Looked S.Stable store.old store.new }
{
    if address == 0 {
        return Ok(empty_sector());
    }
    get_sector(store, address)
}
