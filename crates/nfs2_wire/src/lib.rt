//! NFS version 2 on the wire: the arguments of calls, the bytes of replies, and file handles (RFC 1094).
#![tactic(auto)]

mod all_calls;
mod arguments;
mod attributes;
mod entries;
mod handle;
mod on_volume;
mod reply;
mod results;
mod room;
mod shapes;

pub use all_calls::{NfsCall, read_arguments};
pub use handle::handle_bytes;
pub use reply::{stale_reply, write_reply};
pub use room::{Room, longest};

#[cfg(test)]
mod tests;
#[cfg(test)]
mod tests_of_arguments;
