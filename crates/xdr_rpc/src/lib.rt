//! Calls as they come in datagrams, and the words that calls and replies are made of (RFC 1057, RFC 1014).
#![tactic(auto)]

mod call;
mod credential;
mod reading;
mod refusal;
mod rpc;
mod sheet;
mod short_reply;
mod tests_in_order;

pub use call::{Data9, ReplyBytes, RpcCall};
pub use reading::{fixed_at, opaque_at, word_at};
pub use refusal::{Cause, garbage_reply, refusal_of, too_weak_reply, void_reply};
pub use rpc::{RpcRead, read_rpc};
pub use sheet::Sheet;
pub use short_reply::{ShortReply, reply_of_words};

#[cfg(test)]
mod tests;
