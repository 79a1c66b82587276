// What is known of each entry of a board that was read.
ghost use Rattle.std.specs.Prelude.{◌≡◌, ◌-◌, ◌^◌, ◌<◌, true, ℕ, length, IfOk};
ghost use Rattle.nvram_map.specs.Boards.{FitBuffers};
ghost use Rattle.presto_cache.specs.Slots.{AllBelowSectors};
ghost use Rattle.presto_cache.specs.Made.{IsMadeOf};
ghost use Rattle.presto_cache.specs.declared.slot.Slot.TheVariants.{Set};

use crate::slot::Slot;
use nvram_map::BoardEntry;
use rig::NoMemory;
use std::alloc::Global;

// The entries of a board with so many buffers.
pub fn slots_for(alloc: Global, board: &[BoardEntry], buffers: u32) -> Result<Vec<Slot>, NoMemory>
    requires { FitBuffers buffers board.now }
    ensures count { IfOk result (λ slots. length slots.items ≡ buffers - 1) }
    ensures each { IfOk result (λ slots. IsMadeOf board.now slots.items) }
    ensures sectors { IfOk result (λ slots. AllBelowSectors (2 ^ 32) slots.items) }
{
    let mut slots = vec![in alloc; Slot::Free; buffers.saturating_sub(1) as usize]?;
    for entry in board {
        slots[entry.index as usize] = set_slot(*entry);
    }
    Ok(slots)
}

// An entry that is set.
fn set_slot(entry: BoardEntry) -> Slot
    ensures set { result ≡ Set entry.sector entry.buffer }
    ensures small { entry.sector < 2 ^ 32 }
{
    Slot::Set {
        sector: entry.sector,
        buffer: entry.buffer,
    }
}
