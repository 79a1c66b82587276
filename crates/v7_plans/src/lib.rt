//! Laws of plans that change one node alone, and of puts that don't show.
#![tactic(auto)]

mod laws;

pub use laws::{
    a_shorter_file_is_planned, an_accepted_setattr_is_planned, quiet_puts_may_come_first,
    setting_is_planned, shrinking_is_planned, zeros_past_the_size_are_quiet,
};
