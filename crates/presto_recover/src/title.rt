// The name of the volume, as the disk has it and as the board completes it.
ghost use Rattle.std.specs.Prelude.{◌≡◌, ◌≢◌, ◌⊎◌, ◌≤◌, Bool, true, false, None, IfOk, IfErr, OnOk};
ghost use Rattle.stable.specs.Counts.{HasCause};
ghost use Rattle.stable.specs.Store.{name_in};
ghost use Rattle.rig.specs.Looked.{Looked};
ghost use Rattle.nvram_map.specs.Overlay.{overlay};
ghost use Rattle.nvram_map.specs.Words.{IsBoardOf};
ghost use Rattle.presto_cache.specs.Cache.{slots_of, Knows};
ghost use Rattle.presto_cache.specs.Slots.{find_in};
ghost use Rattle.presto_unit.specs.Opening.{title_of};
ghost use Rattle.presto_recover.specs.Refused.{IsReason, name_bytes};

use crate::fault::OpenFault;
use nvram_map::BoardFault;
use presto_cache::Cache;
use presto_unit::read_through;
use rig::{Failed, Rig};

// The six bytes of the name in a super-block (filsys(5), s_fpack).
fn name_of(super_block: &[u8; 512]) -> [u8; 6]
    ensures { result ≡ name_in super_block.now }
{
    let mut name = [0; 6];
    name.copy_from_slice(&super_block[434..440]);
    name
}

/// The volume's name on the disk.
pub fn read_name<R: Rig>(rig: &mut R) -> Result<[u8; 6], Failed>
    requires { 2 ≤ (R.sizes rig.old).sectors }
    ensures name { R.tells → IfOk result (λ name. name ≡ name_bytes (R.contents rig.old).disk) }
    ensures cause { HasCause (R.faults rig.old) (R.faults rig.new) result }
    ensures looked { Looked R.Rig rig.old rig.new }
{
    let mut super_block = [0; 512];
    rig.read(1, &mut super_block)?;
    Ok(name_of(&super_block))
}

fn is_same(one: &[u8; 6], other: &[u8; 6]) -> bool
    ensures same { result ≡ true → one.now ≡ other.now }
    ensures differs { result ≡ false → one.now ≢ other.now }
{
    one == other
}

// The entry of sector 1 has the name of the disk.
fn check_entry_name<R: Rig>(cache: &Cache, rig: &mut R, name: [u8; 6]) -> Result<(), OpenFault>
    requires sectors { 2 ≤ (R.sizes rig.old).sectors }
    requires knows { Knows R.Rig rig.old cache.now }
    requires entry { find_in (slots_of cache.now) 1 ≢ None }
    requires name { R.tells → name ≡ name_bytes (R.contents rig.old).disk }
    requires board { R.tells → ((R.sizes rig.old).buffers ≡ 0) ⊎ IsBoardOf (R.sizes rig.old) (title_of (R.contents rig.old).disk) (R.contents rig.old) }
    ensures same { R.tells → OnOk result (name_bytes (overlay (R.contents rig.old)) ≡ name_bytes (R.contents rig.old).disk) }
    ensures refused { IfErr result (λ fault. (accepted : Bool) → IsReason R.Rig accepted rig.old rig.new fault) }
    ensures looked { Looked R.Rig rig.old rig.new }
{
    let mut super_block = [0; 512];
    read_through(cache, rig, 1, &mut super_block)?;
    let volume = name_of(&super_block);
    if !is_same(&volume, &name) {
        return Err(OpenFault::Board(BoardFault::WrongVolume {
            board: name,
            volume,
        }));
    }
    Ok(())
}

/// Where an entry is of sector 1, it has the name of the disk.
pub fn check_name<R: Rig>(cache: &Cache, rig: &mut R, name: [u8; 6]) -> Result<(), OpenFault>
    requires sectors { 2 ≤ (R.sizes rig.old).sectors }
    requires knows { Knows R.Rig rig.old cache.now }
    requires name { R.tells → name ≡ name_bytes (R.contents rig.old).disk }
    requires board { R.tells → ((R.sizes rig.old).buffers ≡ 0) ⊎ IsBoardOf (R.sizes rig.old) (title_of (R.contents rig.old).disk) (R.contents rig.old) }
    ensures same { R.tells → OnOk result (name_bytes (overlay (R.contents rig.old)) ≡ name_bytes (R.contents rig.old).disk) }
    ensures refused { IfErr result (λ fault. (accepted : Bool) → IsReason R.Rig accepted rig.old rig.new fault) }
    ensures needed { IfErr result (λ fault. find_in (slots_of cache.now) 1 ≢ None) }
    ensures looked { Looked R.Rig rig.old rig.new }
{
    match cache.find(1) {
        None => Ok(()),
        Some(_) => check_entry_name(cache, rig, name),
    }
}
