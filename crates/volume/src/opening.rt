// The name and the root of a volume.
ghost use Rattle.std.specs.Prelude.{◌≡◌, ◌<◌, ◌≤◌, IfOk};
ghost use Rattle.stable.specs.Counts.{HasCause};
ghost use Rattle.stable.specs.Looked.{Looked};
ghost use Rattle.volume.specs.Opens.{HasTitle};

use files_model::FileId;
use stable::{Failed, Stable};
use v7_layout::{Record, Super};
use v7_map::has_sizes;
use v7_read::{get_sector, inode_in, inode_sector_of};

/// The number of the root directory (filsys(5)).
const ROOT: u32 = 2;

/// A volume's name, and its root directory.
#[derive(Clone, Copy)]
pub struct Title {
    pub name: [u8; 6],
    pub root: FileId,
}

/// Reads the name and the root of a volume. None where its sizes can't be.
pub fn look<S: Stable>(store: &mut S) -> Result<Option<Title>, Failed>
    ensures found { S.tells → IfOk result (λ title. HasTitle (S.image store.old) title) }
    ensures cause { HasCause (S.faults store.old) (S.faults store.new) result }
    ensures looked { Looked S.Stable store.old store.new }
{
    let sectors = store.sectors();
    if sectors < 2 {
        return Ok(None);
    }
    let super_block = Super::read(&get_sector(store, 1)?);
    if !has_sizes(&super_block, sectors) {
        return Ok(None);
    }
    let sector = get_sector(store, inode_sector_of(ROOT))?;
    let root = FileId {
        ino: ROOT,
        generation: inode_in(&sector, ROOT).generation,
    };
    Ok(Some(Title {
        name: super_block.s_fpack,
        root,
    }))
}
