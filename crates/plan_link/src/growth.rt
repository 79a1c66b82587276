// What a directory has with one entry more.

ghost use Rattle.std.specs.Prelude.{◌≡◌, ◌<◌, ◌+◌, if◌then◌else◌};
ghost use Rattle.plan_name.specs.Growth.{added_blocks};

use plan_name::added_blocks;

/// How long a slot of a directory is, in bytes (filsys(5)).
const SLOT_BYTES: u32 = 16;

/// The size that a directory has with one entry more, in bytes, and how many blocks it takes for that.
#[derive(Clone, Copy)]
pub(crate) struct Growth {
    pub size: u32,
    pub blocks: u32,
}

/// What a directory of this size has once an entry came at its end, or in an empty slot. A size of 2 ^ 32 - 16 or more, which no directory has, stays.
pub(crate) fn growth_of(size: u32, at_end: bool) -> Growth
    ensures size { size + 16 < 4294967296 → result.size ≡ (if at_end then size + 16 else size) }
    ensures blocks { result.blocks ≡ (if at_end then added_blocks size else 0) }
{
    if at_end {
        return Growth {
            size: size.saturating_add(SLOT_BYTES),
            blocks: added_blocks(size),
        };
    }
    Growth { size, blocks: 0 }
}
