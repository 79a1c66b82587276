//! The plan of a SYMLINK.
#![tactic(auto)]

mod judging;
mod links_at_end;
mod links_in_place;
mod making;
mod new_link;
mod puts;
mod symlink;
mod text_blocks;
mod text_puts;

pub use symlink::plan_symlink;

#[cfg(test)]
mod tests;
