// How many blocks a directory takes that gets longer by a slot.

ghost use Rattle.std.specs.Prelude.{◌≡◌};
ghost use Rattle.plan_name.specs.Growth.{added_blocks};

/// How many blocks a directory of this size, in bytes, takes when it gets longer by a slot: one where its last sector is full, and another for its
/// block of addresses with its eleventh sector.
#[tactic(auto, unfolding(crate::specs::Growth::added_blocks))]
pub fn added_blocks(size: u32) -> u32
    ensures { result ≡ added_blocks size }
{
    if size % 512 != 0 {
        return 0;
    }
    if size / 512 == 10 {
        return 2;
    }
    1
}
