// A board is made one without entries.
ghost use Rattle.std.specs.Prelude.{◌≡◌, ◌<◌, OnOk};
ghost use Rattle.stable.specs.Counts.{HasCause};
ghost use Rattle.stable.specs.Moments.{LeavesOnly};
ghost use Rattle.rig.specs.Looked.{StaysOffDisk};
ghost use Rattle.nvram_map.specs.Overlay.{overlay};
ghost use Rattle.nvram_map.specs.Words.{name_word, IsBoardOf};
ghost use Rattle.nvram_map.specs.Formats.{formatted, PartlyFormatted, PartlyFreed, emptied};

use byteorder::{BigEndian, ByteOrder};
use rig::{Failed, Rig};

/// The first word of a formatted board, "PRESTOV1" in ASCII.
pub(crate) const MARK: u64 = 0x50524553544F5631;

// Stores 0 in each entry, by rising index.
fn free_entries<R: Rig>(rig: &mut R) -> Result<(), Failed>
    requires { 0 < (R.sizes rig.old).buffers }
    ensures done { R.tells → OnOk result (R.contents rig.new ≡ emptied (R.contents rig.old)) }
    ensures crash { LeavesOnly R.moment R.left_since rig.old rig.new (PartlyFreed (R.contents rig.old)) }
    ensures cause { HasCause (R.faults rig.old) (R.faults rig.new) result }
    ensures stays { StaysOffDisk R.Rig rig.old rig.new }
{
    for index in 0..rig.buffers() - 1 {
        rig.store_word(index + 2, 0)?;
    }
    Ok(())
}

/// Makes the board one of the volume with that name and without an entry. What its entries had is lost.
///
/// It stores 0 in each entry, by rising index, then the name, then the mark. The disk, the buffers and whether the
/// board kept its memory stay as they are. After Failed, or after a crash in it, the stores up to some one are done.
pub fn format<R: Rig>(rig: &mut R, volume: [u8; 6]) -> Result<(), Failed>
    requires { 0 < (R.sizes rig.old).buffers }
    ensures done { R.tells → OnOk result (R.contents rig.new ≡ formatted (name_word volume) (R.contents rig.old)) }
    ensures board { R.tells → OnOk result (IsBoardOf (R.sizes rig.old) (name_word volume) (R.contents rig.new)) }
    ensures image { R.tells → OnOk result (overlay (R.contents rig.new) ≡ (R.contents rig.old).disk) }
    ensures crash { LeavesOnly R.moment R.left_since rig.old rig.new (PartlyFormatted (name_word volume) (R.contents rig.old)) }
    ensures cause { HasCause (R.faults rig.old) (R.faults rig.new) result }
    ensures stays { StaysOffDisk R.Rig rig.old rig.new }
{
    free_entries(rig)?;
    rig.store_word(1, BigEndian::read_u48(&volume))?;
    rig.store_word(0, MARK)?;
    Ok(())
}
