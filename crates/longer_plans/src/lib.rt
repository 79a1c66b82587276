//! Laws of plans of names whose directory gets longer by new blocks, and of plans of symbolic links.
#![tactic(auto)]

mod linking;
mod making_directories;
mod making_links;
mod renaming;

pub use linking::a_link_with_new_blocks_is_planned;
pub use making_directories::a_new_directory_with_new_blocks_is_planned;
pub use making_links::{a_new_link_at_the_end_is_planned, a_new_link_in_place_is_planned};
pub use renaming::a_move_with_new_blocks_is_planned;
