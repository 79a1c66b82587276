// How large a volume may be.

ghost use Rattle.std.specs.Prelude.{◌≡◌};
ghost use Rattle.v7_make.specs.Sizes.{list_blocks, fitting};

use crate::fault::MakeFault;

/// How many sectors a volume has at most.
const MOST_SECTORS: u32 = 1_048_576;

/// How many inodes a volume has at most.
const MOST_INODES: u32 = 65_528;

/// How many blocks so many inodes take, eight to a block.
pub fn list_blocks(inodes: u32) -> u32
    ensures { result ≡ list_blocks inodes }
{
    inodes.div_ceil(8)
}

/// Whether a volume of so many sectors can have so many inodes, eight to a block. It is TooLarge above 1,048,576 sectors or 65,528
/// inodes, and else TooSmall where the boot block, the super-block, the inodes and a block for the root need more sectors.
#[tactic(auto, unfolding(crate::specs::Sizes::fitting))]
pub fn fits(size: u32, inodes: u32) -> Result<(), MakeFault>
    ensures { result ≡ fitting size inodes }
{
    if size > MOST_SECTORS || inodes > MOST_INODES {
        return Err(MakeFault::TooLarge);
    }
    let need = 3 + list_blocks(inodes);
    if size < need {
        return Err(MakeFault::TooSmall { need, have: size });
    }
    Ok(())
}
