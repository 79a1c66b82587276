//! Files, the calls on them, and what each call means: the words that every other crate speaks.
#![tactic(auto)]

mod address;
mod attributes;
mod bytes;
mod call;
mod credential;
mod entries;
mod permission;
mod reply;

pub use address::Address;
pub use attributes::{Attr, FileId, Kind, Sattr};
pub use bytes::{Data, Name, Text};
pub use call::{Call, WriteItem};
pub use credential::{Cred, Gids};
pub use entries::{Entries, Entry};
pub use lists::NoMemory;
pub use permission::{Want, may};
pub use reply::{Reply, Stat};

#[cfg(test)]
mod tests;
