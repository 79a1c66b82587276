// What became of a call.

use arrayvec::ArrayVec;
use files_model::Reply;

/// What became of a call.
#[derive(Drop)]
pub enum Outcome {
    /// It was done, or refused, and this is the answer.
    Reply(Reply),
    /// The device failed. What was called may be done in part.
    Io,
    /// There was no memory. Nothing was changed.
    NoMemory,
}

/// What became of a batch of writes.
#[derive(Drop)]
pub enum Commit {
    /// Each write was done, or refused, and these are the answers in order.
    Replies(ArrayVec<Reply, 16>),
    /// The device failed. The writes may be done in part.
    Io,
    /// There was no memory. Nothing was changed.
    NoMemory,
}
