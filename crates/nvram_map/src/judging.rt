// An entry's word is judged, by itself and beside the entries of lower indices.
ghost use Rattle.std.specs.Prelude.{◌≡◌, ◌↔◌, IsTrue, OnOk, IfErr};
ghost use Rattle.nvram_map.specs.Judged.{Says, AreUnused, IsAdded, IsRefused};

use crate::board::BoardEntry;
use crate::fault::BoardFault;
use rig::Rig;

/// What an entry's word says by itself.
pub enum Word {
    /// The entry is free.
    Free,
    /// The entry is set, and its sector and its buffer are in range.
    Entry { sector: u32, buffer: u32 },
    /// Neither.
    Damaged,
}

/// Bits 48 to 63 of a set entry's word.
const SET: u64 = 0x8000;

fn read_word<R: Rig>(rig: &R, word: u64) -> Word
    ensures { Says (R.sizes rig.now) word result }
{
    let sectors = rig.sectors();
    if word == 0 {
        return Word::Free;
    }
    if word >> 48 != SET {
        return Word::Damaged;
    }
    let sector = (word % (1 << 32)) as u32;
    if sector >= sectors {
        return Word::Damaged;
    }
    let buffer = ((word >> 32) % (1 << 16)) as u32;
    if buffer >= rig.buffers() {
        return Word::Damaged;
    }
    Word::Entry { sector, buffer }
}

fn are_unused(entries: &[BoardEntry], sector: u32, buffer: u32) -> bool
    ensures { IsTrue result ↔ AreUnused sector buffer entries.now }
{
    entries
        .iter()
        .all(|entry| entry.sector != sector && entry.buffer != buffer)
}

/// Adds the entry that the word of that index says, if any, to those of lower indices.
pub fn add_word<R: Rig>(
    rig: &R,
    found: &mut Vec<BoardEntry>,
    index: u32,
    word: u64,
) -> Result<(), BoardFault>
    ensures added { OnOk result (IsAdded (R.sizes rig.now) found.old.items index word found.new.items) }
    ensures refused { IfErr result (λ fault. IsRefused (R.sizes rig.now) found.old.items index word fault) }
{
    match read_word(rig, word) {
        Word::Free => Ok(()),
        Word::Entry { sector, buffer } => {
            if !are_unused(found, sector, buffer) {
                return Err(BoardFault::BadEntry { index, word });
            }
            found.push(BoardEntry {
                index,
                sector,
                buffer,
            })?;
            Ok(())
        }
        Word::Damaged => Err(BoardFault::BadEntry { index, word }),
    }
}
