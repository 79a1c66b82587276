// What is kept of inodes, and where the slots of directories stand.

ghost use Rattle.std.specs.Prelude.{◌≡◌, ◌<◌, ◌≤◌, ◌+◌, ◌/◌, ◌^◌, ℕ, length, map, OnOk, IfOk};
ghost use Rattle.stable.specs.Counts.{HasCause};
ghost use Rattle.stable.specs.Looked.{Looked};
ghost use Rattle.v7_map.specs.Image.{inode_sector};
ghost use Rattle.v7_map.specs.Frame.{frame};
ghost use Rattle.v7_damage.specs.Stored.{body_at};
ghost use Rattle.v7_damage.specs.Tables.{IsNext, AreSectors, CanRead, IsFirst, block_by, slots_kept};
ghost use Rattle.v7_damage.specs.Summaries.{no_summary, summary_by};

use crate::reader::InodeReader;
use crate::summary::{Summary, no_summary, summary_of};
use stable::{Failed, NoMemory, Stable};
use std::alloc::Global;
use v7_layout::Inode;
use v7_read::read_places;

/// The type of a directory in the four highest bits of a mode.
const DIRECTORY: u16 = 4;

/// The greatest size of a file in bytes, 138 sectors.
const SIZE_LIMIT: u32 = 70_656;

/// How many sectors of directories are kept at most.
const MOST_KEPT: usize = 150_000;

/// Where the blocks of a directory begin that aren't kept.
const NOT_KEPT: u32 = 4_294_967_295;

/// A summary of each inode, and where the slots of directories stand, by i-number, so that they are read again without their inodes and blocks of
/// addresses. It takes ten bytes an inode and four a sector of a directory, of 150,000 at most: the directories that have no room are found by
/// their inodes again.
#[derive(Drop)]
pub(crate) struct Bodies {
    pub(crate) summaries: Vec<Summary>,
    /// How many slots a directory has, 0 for what is none.
    pub(crate) slots: Vec<u16>,
    /// Where its blocks begin in `blocks`, if they are kept.
    pub(crate) starts: Vec<u32>,
    /// The blocks of the sectors of directories.
    pub(crate) blocks: Vec<u32>,
}

/// The tables with room for so many inodes of a volume of so many blocks, and an entry for i-number 0, which no inode has.
pub(crate) fn no_bodies(alloc: Global, room: usize, blocks: u32) -> Result<Bodies, NoMemory>
    ensures { IfOk result IsFirst }
{
    let mut summaries = Vec::with_capacity(alloc, room)?;
    let mut slots = Vec::with_capacity(alloc, room)?;
    let mut starts = Vec::with_capacity(alloc, room)?;
    summaries.push(no_summary())?;
    slots.push(0)?;
    starts.push(0)?;
    Ok(Bodies {
        summaries,
        slots,
        starts,
        blocks: Vec::with_capacity(alloc, MOST_KEPT.min(blocks as usize))?,
    })
}

// How many slots of an inode are kept.
fn slots_of(inode: &Inode) -> u16
    ensures { result ≡ slots_kept inode.now }
{
    if inode.mode / 4096 != DIRECTORY {
        return 0;
    }
    (inode.size.min(SIZE_LIMIT) / 16) as u16
}

/// The block of sector `index` of a body, by the 140 blocks of its inode, 0 where no body has so many sectors.
pub fn body_block(places: &[u32; 140], index: usize) -> u32
    ensures { index < 138 → result ≡ body_at places.now index }
{
    if index >= 138 {
        return 0;
    }
    let place = if index < 10 { index } else { index + 1 };
    places[place]
}

/// Puts the next inode, whose blocks stand at these places, at the end of the tables.
pub(crate) fn keep_body(
    bodies: &mut Bodies,
    inode: &Inode,
    places: &[u32; 140],
) -> Result<(), NoMemory>
    requires { length bodies.old.blocks.items ≤ 150000 }
    ensures { OnOk result (IsNext bodies.old bodies.new (slots_kept inode.now) (body_at places.now) (summary_by inode.now places.now)) }
{
    let count = slots_of(inode);
    bodies.summaries.push(summary_of(inode, places))?;
    bodies.slots.push(count)?;
    let sectors = count.div_ceil(32);
    if bodies.blocks.len() + sectors as usize > MOST_KEPT {
        bodies.starts.push(NOT_KEPT)?;
        return Ok(());
    }
    bodies.starts.push(bodies.blocks.len() as u32)?;
    for index in 0..sectors {
        bodies.blocks.push(body_block(places, index as usize))?;
    }
    Ok(())
}

/// Puts a free inode at the end of the tables.
pub(crate) fn keep_none(bodies: &mut Bodies) -> Result<(), NoMemory>
    requires { length bodies.old.blocks.items ≤ 150000 }
    ensures { (at : ℕ → ℕ) → OnOk result (IsNext bodies.old bodies.new 0 at no_summary) }
{
    bodies.summaries.push(no_summary())?;
    bodies.slots.push(0)?;
    bodies.starts.push(NOT_KEPT)?;
    Ok(())
}

/// Where the sectors of a directory stand.
#[derive(Clone, Copy)]
pub(crate) enum Sectors {
    /// In the table of blocks, from here on.
    InTable(u32),
    /// At these places of its inode.
    Read([u32; 140]),
}

/// Finds where the sectors of a directory stand. Its inode and its block of addresses are read again where they aren't kept. Nothing is changed.
pub(crate) fn find_sectors<S: Stable>(
    store: &mut S,
    bodies: &Bodies,
    ino: u16,
) -> Result<Sectors, Failed>
    requires stands { inode_sector ino < S.sector_count store.old }
    requires starts { ino < length bodies.now.starts.items }
    ensures sectors { S.tells → CanRead (S.image store.old) bodies.now ino → IfOk result (λ sectors. AreSectors (frame (S.image store.old)) bodies.now sectors ino) }
    ensures cause { HasCause (S.faults store.old) (S.faults store.new) result }
    ensures looked { Looked S.Stable store.old store.new }
{
    let start = bodies.starts[ino as usize];
    if start != NOT_KEPT {
        return Ok(Sectors::InTable(start));
    }
    let mut reader = InodeReader::new();
    let inode = reader.read(store, ino as u32)?;
    let places = read_places(store, &inode)?;
    Ok(Sectors::Read(places))
}

/// The block of sector `index` of a directory, 0 where it has none.
pub(crate) fn block_of(bodies: &Bodies, sectors: &Sectors, index: usize) -> u32
    requires { index < 2 ^ 60 }
    ensures { index < 138 → result ≡ block_by bodies.now sectors.now index }
{
    match sectors {
        Sectors::InTable(start) => match bodies.blocks.get(*start as usize + index) {
            Some(block) => *block,
            None => 0,
        },
        Sectors::Read(places) => body_block(places, index),
    }
}
