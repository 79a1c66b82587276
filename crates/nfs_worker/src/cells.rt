//! What the workers of a server share.
ghost use Rattle.std.specs.Prelude.{◌≡◌, ◌≤◌, map, length, IfOk, IfErr};
ghost use Rattle.volume.specs.Mounted.{store_of, root_of};
ghost use Rattle.nfs_worker.specs.Desk.{new_desk};
ghost use Rattle.nfs_worker.specs.Volumes.{puts_of};

use crate::desk::Desk;
use files_model::{FileId, NoMemory};
use stable::Tended;
use std::alloc::Global;
use volume::Volume;

/// The volumes that are served, from one to four, each on its store; and what is answered beside them.
#[derive(Drop)]
pub struct Cells<S> {
    pub alloc: Global,
    pub volumes: Vec<Volume<S>>,
    pub desk: Desk,
}

// The root of each volume.
fn roots_of<S: Tended>(alloc: Global, volumes: &Vec<Volume<S>>) -> Result<Vec<FileId>, NoMemory>
    ensures { IfOk result (λ roots. roots.items ≡ map root_of volumes.now.items) }
{
    let mut roots = Vec::new(alloc);
    for volume in volumes {
        roots.push(volume.root())?;
    }
    Ok(roots)
}

// How often each store has been put.
fn puts_of<S: Tended>(alloc: Global, volumes: &Vec<Volume<S>>) -> Result<Vec<u64>, NoMemory>
    ensures { IfOk result (λ puts. puts.items ≡ map (puts_of S.Stable) volumes.now.items) }
{
    let mut puts = Vec::new(alloc);
    for volume in volumes {
        puts.push(volume.snapshot().puts)?;
    }
    Ok(puts)
}

fn desk_of<S: Tended>(alloc: Global, volumes: &Vec<Volume<S>>) -> Result<Desk, NoMemory>
    requires some { 1 ≤ length volumes.now.items }
    requires few { length volumes.now.items ≤ 4 }
    ensures { IfOk result (λ desk. desk ≡ new_desk (map root_of volumes.now.items) (map (puts_of S.Stable) volumes.now.items)) }
{
    let roots = roots_of(alloc, volumes)?;
    let puts = puts_of(alloc, volumes)?;
    Desk::new(alloc, roots, puts)
}

/// The cells of one to four volumes, which come back where there is no memory. STATUS counts the puts of each from here on.
pub fn open_cells<S: Tended>(
    alloc: Global,
    volumes: Vec<Volume<S>>,
) -> Result<Cells<S>, Vec<Volume<S>>>
    requires some { 1 ≤ length volumes.items }
    requires few { length volumes.items ≤ 4 }
    ensures volumes { IfOk result (λ cells. cells.volumes ≡ volumes) }
    ensures desk { IfOk result (λ cells. cells.desk ≡ new_desk (map root_of volumes.items) (map (puts_of S.Stable) volumes.items)) }
    ensures back { IfErr result (λ back. back ≡ volumes) }
{
    match desk_of(alloc, &volumes) {
        Ok(desk) => Ok(Cells {
            alloc,
            volumes,
            desk,
        }),
        Err(_) => Err(volumes),
    }
}
