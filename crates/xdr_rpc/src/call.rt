//! What a datagram is read as.

use files_model::{Cred, Name};
use lists::Bytes;

/// The arguments of a call, not read yet: at most 9,216 bytes, the longest datagram.
pub type Data9 = Bytes<9216>;

/// A reply as it goes out: at most 17,692 bytes, the longest list of mounts.
pub type ReplyBytes = Bytes<17692>;

/// A call of a procedure that is served (RFC 1057 8, call_body): its transaction number, who calls from which machine, and the bytes of the arguments.
#[derive(Drop)]
pub struct RpcCall {
    pub xid: u32,
    pub program: u32,
    pub procedure: u32,
    pub cred: Cred,
    pub machine: Name,
    pub args: Data9,
}
