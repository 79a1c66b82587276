//! From a call on a volume to the bytes of its reply.
#![tactic(auto)]

mod handling;

pub use handling::{Handled, handle};
