//! Laws of plans of names: the calls that make and take away names.
#![tactic(auto)]

mod creating;
mod linking;
mod making_directories;
mod removing;
mod removing_directories;
mod renaming;

pub use creating::{
    a_create_of_a_standing_file_sets_its_size, a_creation_at_the_end_is_planned,
    a_creation_in_place_is_planned, a_creation_with_new_blocks_is_planned,
    an_accepted_create_makes_a_file, the_sets_follow_a_creation,
};
pub use linking::{a_link_at_the_end_is_planned, a_link_in_place_is_planned};
pub use making_directories::{
    a_new_directory_at_the_end_is_planned, a_new_directory_in_place_is_planned,
};
pub use removing::{a_removal_is_planned, the_sets_follow_a_removal};
pub use removing_directories::{
    a_removal_of_a_directory_is_planned, the_sets_follow_a_removal_of_a_directory,
};
pub use renaming::{
    a_move_at_the_end_is_planned, a_move_in_place_is_planned, a_new_name_is_planned,
    a_replacement_is_planned, the_sets_follow_a_replacement,
};
