//! Strokes: puts of one record each, whatever call makes them, and what they leave of an image.
#![tactic(auto)]

mod added;
mod laws;
mod over;
mod records;

pub use added::{add_inode, add_longer, add_slot, add_times, add_unlinked, planned_inode};
pub use laws::{
    a_directory_gets_longer, a_directory_is_named, a_directory_is_taken_away,
    a_free_block_takes_a_put, a_made_inode_is_a_new_file, a_new_directory_stands_in_a_free_block,
    a_slot_is_put, a_slot_may_be_appended, an_ended_inode_frees_its_blocks,
    an_unnamed_inode_is_put, attributes_are_put, merged_puts_are_a_plan, the_free_blocks_follow,
    the_free_numbers_follow,
};
pub use over::planned_sector;
pub use records::{
    Blocks, empty_slot, ended_inode, longer_inode, slot_of, unlinked_inode, with_address,
    with_inode, with_slot,
};

#[cfg(test)]
mod tests;
