// The board of a volume is found: read, or formatted.
ghost use Rattle.std.specs.Prelude.{◌≡◌, ◌<◌, ◌≤◌, Bool, true, false, IfOk, IfErr, OnOk};
ghost use Rattle.stable.specs.Counts.{HasCause};
ghost use Rattle.rig.specs.Devices.{with_kept};
ghost use Rattle.rig.specs.Looked.{Looked};
ghost use Rattle.nvram_map.specs.Words.{name_word};
ghost use Rattle.nvram_map.specs.Formats.{formatted};
ghost use Rattle.presto_recover.specs.Boards.{IsFound};
ghost use Rattle.presto_recover.specs.Recovering.{OnlyFormats};
ghost use Rattle.presto_recover.specs.Refused.{IsReason, name_bytes};

use crate::fault::OpenFault;
use crate::parts::Found;
use nvram_map::{Board, BoardFault, format, read_board};
use rig::{Failed, Rig};
use std::alloc::Global;

// A lost board is formatted, and marked as kept.
fn format_lost<R: Rig>(rig: &mut R, name: [u8; 6]) -> Result<(), Failed>
    requires board { 0 < (R.sizes rig.old).buffers }
    requires lost { R.is_kept rig.old ≡ false }
    requires name { R.tells → name ≡ name_bytes (R.contents rig.old).disk }
    ensures done { R.tells → OnOk result (R.contents rig.new ≡ with_kept (formatted (name_word name) (R.contents rig.old))) }
    ensures kept { OnOk result (R.is_kept rig.new ≡ true) }
    ensures cause { HasCause (R.faults rig.old) (R.faults rig.new) result }
    ensures formats { OnlyFormats R.Rig true rig.old rig.new }
{
    format(rig, name)?;
    rig.mark_kept()?;
    Ok(())
}

// A lost board is refused, or formatted where the loss is accepted.
fn find_lost<R: Rig>(
    alloc: Global,
    rig: &mut R,
    name: [u8; 6],
    accept_loss: bool,
) -> Result<Found, OpenFault>
    requires sectors { 2 ≤ (R.sizes rig.old).sectors }
    requires board { 0 < (R.sizes rig.old).buffers }
    requires lost { R.is_kept rig.old ≡ false }
    requires name { R.tells → name ≡ name_bytes (R.contents rig.old).disk }
    ensures found { IfOk result (IsFound R.Rig accept_loss rig.old rig.new) }
    ensures refused { IfErr result (IsReason R.Rig accept_loss rig.old rig.new) }
    ensures formats { OnlyFormats R.Rig accept_loss rig.old rig.new }
{
    // its contract says that the number of sectors has 32 bits
    let _sectors = rig.sectors();
    if !accept_loss {
        return Err(OpenFault::Board(BoardFault::Lost));
    }
    format_lost(rig, name)?;
    Ok(Found {
        board: Board::empty(alloc, name),
        lost: true,
    })
}

// A board that kept its memory is read.
fn find_kept<R: Rig>(alloc: Global, rig: &mut R, name: [u8; 6]) -> Result<Found, OpenFault>
    requires sectors { 2 ≤ (R.sizes rig.old).sectors }
    requires board { 0 < (R.sizes rig.old).buffers }
    requires kept { R.is_kept rig.old ≡ true }
    requires name { R.tells → name ≡ name_bytes (R.contents rig.old).disk }
    ensures found { IfOk result (λ found. (accepted : Bool) → IsFound R.Rig accepted rig.old rig.new found) }
    ensures refused { IfErr result (λ fault. (accepted : Bool) → IsReason R.Rig accepted rig.old rig.new fault) }
    ensures looked { Looked R.Rig rig.old rig.new }
{
    // its contract says that the number of sectors has 32 bits
    let _sectors = rig.sectors();
    let board = read_board(alloc, rig, name)?;
    Ok(Found { board, lost: false })
}

/// The board of the volume with that name, if there is one.
pub fn find_board<R: Rig>(
    alloc: Global,
    rig: &mut R,
    name: [u8; 6],
    accept_loss: bool,
) -> Result<Found, OpenFault>
    requires sectors { 2 ≤ (R.sizes rig.old).sectors }
    requires name { R.tells → name ≡ name_bytes (R.contents rig.old).disk }
    ensures found { IfOk result (IsFound R.Rig accept_loss rig.old rig.new) }
    ensures refused { IfErr result (IsReason R.Rig accept_loss rig.old rig.new) }
    ensures formats { OnlyFormats R.Rig accept_loss rig.old rig.new }
{
    // its contract says that the number of sectors has 32 bits
    let _sectors = rig.sectors();
    if rig.buffers() == 0 {
        return Ok(Found {
            board: Board::empty(alloc, name),
            lost: false,
        });
    }
    if !rig.kept() {
        return find_lost(alloc, rig, name, accept_loss);
    }
    find_kept(alloc, rig, name)
}
