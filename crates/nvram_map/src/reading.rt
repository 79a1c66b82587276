// A board is read, word by word.
ghost use Rattle.std.specs.Prelude.{◌≡◌, ◌≢◌, ◌↔◌, ◌<◌, true, false, get_or, OnOk, IfErr, IsErrOf};
ghost use Rattle.stable.specs.Counts.{Rose};
ghost use Rattle.rig.specs.Looked.{Looked};
ghost use Rattle.nvram_map.specs.Overlay.{entries};
ghost use Rattle.nvram_map.specs.Words.{mark, name_word, name_in};
ghost use Rattle.nvram_map.specs.Boards.{IsTold, IsSafe};
ghost use Rattle.nvram_map.specs.Judged.{AreTold, AreSafe, IsUnmarked, IsMisnamed};

use crate::board::{Board, BoardEntries};
use crate::fault::BoardFault;
use crate::formatting::MARK;
use crate::judging::add_word;
use byteorder::{BigEndian, ByteOrder};
use rig::Rig;
use std::alloc::Global;

fn check_mark<R: Rig>(rig: &mut R) -> Result<(), BoardFault>
    requires { 0 < (R.sizes rig.old).buffers }
    ensures told { R.tells → OnOk result (get_or (R.contents rig.old).words 0 0 ≡ mark) }
    ensures refused { IfErr result (λ fault. IsUnmarked R.tells (R.contents rig.old) fault) }
    ensures looked { Looked R.Rig rig.old rig.new }
    ensures cause { IsErrOf result BoardFault.Failed → Rose (R.faults rig.old) (R.faults rig.new) }
{
    let word = rig.load_word(0)?;
    if word != MARK {
        return Err(BoardFault::NotFormatted { word });
    }
    Ok(())
}

// The name in the low six bytes of a word.
fn name_of(word: u64) -> [u8; 6]
    ensures { result ≡ name_in word }
{
    let mut name = [0; 6];
    BigEndian::write_uint(&mut name, word % (1 << 48), 6);
    name
}

fn check_name<R: Rig>(rig: &mut R, volume: [u8; 6]) -> Result<(), BoardFault>
    requires { 0 < (R.sizes rig.old).buffers }
    ensures told { R.tells → OnOk result (get_or (R.contents rig.old).words 1 0 ≡ name_word volume) }
    ensures refused { IfErr result (λ fault. IsMisnamed R.tells volume (R.contents rig.old) fault) }
    ensures looked { Looked R.Rig rig.old rig.new }
    ensures cause { IsErrOf result BoardFault.Failed → Rose (R.faults rig.old) (R.faults rig.new) }
{
    let word = rig.load_word(1)?;
    if word != BigEndian::read_u48(&volume) {
        return Err(BoardFault::WrongVolume {
            board: name_of(word),
            volume,
        });
    }
    Ok(())
}

fn read_entries<R: Rig>(alloc: Global, rig: &mut R) -> Result<BoardEntries, BoardFault>
    requires { 0 < (R.sizes rig.old).buffers }
    ensures told { R.tells → AreTold (R.sizes rig.old) (entries (R.contents rig.old)) result }
    ensures safe { AreSafe (R.sizes rig.old) result }
    ensures looked { Looked R.Rig rig.old rig.new }
    ensures cause { IsErrOf result BoardFault.Failed → Rose (R.faults rig.old) (R.faults rig.new) }
{
    let mut found = Vec::new(alloc);
    for index in 0..rig.buffers() - 1 {
        let word = rig.load_word(index + 2)?;
        add_word(rig, &mut found, index, word)?;
    }
    Ok(BoardEntries::new(found))
}

/// Reads the entries of the board of the volume with that name. Nothing is changed, whatever it answers.
///
/// It refuses, in this order: a board that lost its memory; one without the mark; one of another volume; the entry of
/// the lowest index that is damaged, which is one whose word is neither 0 nor that of a sector and a buffer in range, or
/// whose sector or buffer an entry of a lower index has. Failed comes where a load failed.
#[tactic(auto, using(crate::proofs::Listed::told_fault))]
pub fn read_board<R: Rig>(alloc: Global, rig: &mut R, volume: [u8; 6]) -> Result<Board, BoardFault>
    requires { 0 < (R.sizes rig.old).buffers }
    ensures told { R.tells → IsTold (R.sizes rig.old) volume (R.contents rig.old) result }
    ensures safe { IsSafe (R.sizes rig.old) volume result }
    ensures lost { IsErrOf result BoardFault.Lost ↔ R.is_kept rig.old ≡ false }
    ensures looked { Looked R.Rig rig.old rig.new }
    ensures cause { IsErrOf result BoardFault.Failed → Rose (R.faults rig.old) (R.faults rig.new) }
{
    if !rig.kept() {
        return Err(BoardFault::Lost);
    }
    check_mark(rig)?;
    check_name(rig, volume)?;
    let entries = read_entries(alloc, rig)?;
    Ok(Board {
        name: volume,
        entries,
    })
}
