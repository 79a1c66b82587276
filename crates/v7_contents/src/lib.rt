//! What the calls that read a body give, over any store: bytes of a file or a link, and entries of a directory.
#![tactic(auto)]

mod body;
mod fault;
mod judged;
mod laws;
mod listing;
mod page;
mod slots;

pub use body::read_content;
pub use fault::ReadFault;
pub use judged::{readdir_refusal_of, readlink_refusal_of};
pub use laws::{readdir_is_answered, readlink_is_answered};
pub use listing::{Listing, list_entries};

#[cfg(test)]
mod tests;
