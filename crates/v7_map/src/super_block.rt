// What a super-block says of its volume.

ghost use Rattle.std.specs.Prelude.{◌≡◌};
ghost use Rattle.v7_map.specs.Image.{inodes_before, is_number_below};
ghost use Rattle.v7_map.specs.Damage.{has_sizes};

use v7_layout::Super;

/// Whether the numbers of a super-block are those of a volume on a store of so many sectors: its
/// mark is 1, its list of inodes ends at block 3 to 8,193, and its blocks end after that and within
/// both the store and 1,048,576 sectors. Where they aren't, sector 1 is damaged.
pub fn has_sizes(super_block: &Super, sectors: u32) -> bool
    ensures { result ≡ has_sizes super_block.now.mark super_block.now.s_isize super_block.now.s_fsize sectors }
{
    let isize = u32::from(super_block.s_isize);
    super_block.mark == 1
        && (3..=8193).contains(&isize)
        && isize < super_block.s_fsize
        && super_block.s_fsize <= sectors
        && super_block.s_fsize <= 1_048_576
}

/// How many inodes a volume has.
pub fn inodes_of(super_block: &Super) -> u32
    ensures { result ≡ inodes_before super_block.now.s_isize }
{
    u32::from(super_block.s_isize).saturating_sub(2) * 8
}

/// Whether a volume has an inode of this number.
pub fn has_inode(super_block: &Super, ino: u32) -> bool
    ensures { result ≡ is_number_below super_block.now.s_isize ino }
{
    1 <= ino && ino <= inodes_of(super_block)
}
