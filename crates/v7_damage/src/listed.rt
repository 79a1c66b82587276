// The super-block and the inodes of a volume.

ghost use Rattle.std.specs.Prelude.{◌≡◌, ◌∷◌, [], true, IfOk, IsErrOf};
ghost use Rattle.stable.specs.Counts.{Rose};
ghost use Rattle.stable.specs.Looked.{Looked};
ghost use Rattle.v7_layout.specs.Records.{super_of};
ghost use Rattle.v7_map.specs.Image.{sector_at};
ghost use Rattle.v7_map.specs.Frame.{frame};
ghost use Rattle.v7_map.specs.Tree.{tree};
ghost use Rattle.v7_map.specs.Damage.{Sizes, has_sizes};
ghost use Rattle.v7_damage.specs.Listed.{HasList, IsListed};
ghost use Rattle.v7_damage.specs.Tests.{IsTold, tests_of_inodes};
ghost use Rattle.v7_damage.specs.declared.damage.RepairFault.TheVariants as fault;

use crate::bodies::{Bodies, no_bodies};
use crate::damage::{Damage, RepairFault};
use crate::inodes::test_inodes;
use crate::marks::Marks;
use stable::Stable;
use std::alloc::Global;
use v7_layout::{Record, Super};
use v7_map::{has_sizes, inodes_of};
use v7_read::get_sector;

/// The super-block, and by i-number the type of each inode, its summary, and where the slots of directories stand. The entry at 0 is that of no
/// inode.
#[derive(Drop)]
pub(crate) struct Listed {
    pub(crate) super_block: Super,
    pub(crate) types: Vec<u8>,
    pub(crate) bodies: Bodies,
}

// The super-block, if its numbers are those of a volume. Nothing is changed.
fn read_super<S: Stable>(store: &mut S) -> Result<Super, RepairFault>
    ensures told { S.tells → IsTold (frame (S.image store.old)) (Sizes ∷ []) result }
    ensures read { S.tells → IfOk result (λ s. s ≡ super_of (sector_at (S.image store.old) 1)) }
    ensures sizes { IfOk result (λ s. has_sizes s.mark s.s_isize s.s_fsize (S.sector_count store.old) ≡ true) }
    ensures cause { IsErrOf result fault.Failed → Rose (S.faults store.old) (S.faults store.new) }
    ensures looked { Looked S.Stable store.old store.new }
{
    let sectors = store.sectors();
    let kind = Damage::Sizes;
    if sectors < 2 {
        return Err(RepairFault::Damaged { sector: 1, kind });
    }
    let bytes = get_sector(store, 1)?;
    let super_block = Super::read(&bytes);
    if !has_sizes(&super_block, sectors) {
        return Err(RepairFault::Damaged { sector: 1, kind });
    }
    Ok(super_block)
}

/// Tests the super-block and the inodes, in one pass over the i-list. Nothing is changed.
pub(crate) fn list_inodes<S: Stable>(alloc: Global, store: &mut S) -> Result<Listed, RepairFault>
    ensures told { S.tells → IsTold (frame (S.image store.old)) (Sizes ∷ tests_of_inodes (frame (S.image store.old)) 1 (tree (frame (S.image store.old))).inodes) result }
    ensures listed { S.tells → IfOk result (λ listed. IsListed (S.image store.old) listed) }
    ensures tables { IfOk result (λ listed. HasList (S.sector_count store.old) listed) }
    ensures cause { IsErrOf result fault.Failed → Rose (S.faults store.old) (S.faults store.new) }
    ensures looked { Looked S.Stable store.old store.new }
{
    let super_block = match read_super(store) {
        Ok(super_block) => super_block,
        Err(fault) => return Err(fault),
    };
    let inodes = inodes_of(&super_block);
    let isize = super_block.s_isize as u32;
    let fsize = super_block.s_fsize;
    let room = inodes as usize + 1;
    let mut seen = Marks::new(alloc, fsize)?;
    let mut types = Vec::with_capacity(alloc, room)?;
    types.push(0)?;
    let mut bodies = no_bodies(alloc, room, fsize)?;
    match test_inodes(
        store,
        isize,
        fsize,
        inodes,
        &mut seen,
        &mut types,
        &mut bodies,
    ) {
        Ok(()) => Ok(Listed {
            super_block,
            types,
            bodies,
        }),
        Err(fault) => Err(fault),
    }
}
