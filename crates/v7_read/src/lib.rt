//! Reads what stands in a volume, over any store: the file of a handle, the sectors of a body, the blocks of an inode.
#![tactic(auto)]

mod blocks;
mod content;
mod found;
mod get;
mod handle;
mod places;
mod sector;

pub use blocks::read_places;
pub use content::{BodySector, body_sector};
pub use found::Found;
pub use get::{empty_sector, get_sector, sector_or_hole};
pub use handle::find;
pub use places::{inode_in, inode_offset_of, inode_sector_of};
pub use sector::sector_of;

#[cfg(test)]
mod tests;
