//! What a turn did, and how a worker ended.

/// Why a datagram is not answered.
#[derive(Clone, Copy, Debug, PartialEq, Eq)]
pub enum DropCause {
    /// It means nothing.
    NoMeaning,
    /// There was no memory for its call or its reply. Nothing was changed.
    NoMemory,
    /// The link failed to send the reply. What was called is done.
    SendFailed,
    /// The link failed to hand over a datagram.
    ReceiveFailed,
}

/// What one turn of a worker did.
#[derive(Clone, Copy, Debug, PartialEq, Eq)]
pub enum Turn {
    /// The link took so many replies, one at least.
    Answered(u32),
    /// The call was left to another worker.
    Left,
    /// None of the turn's datagrams was answered.
    Dropped(DropCause),
    /// No datagram came.
    Idle,
    /// The link has ended.
    Closed,
    /// The server was told to halt.
    Halted,
}

/// How a worker ended.
#[derive(Clone, Copy, Debug, PartialEq, Eq)]
pub enum Ended {
    /// Its last turn found the end of the link.
    Closed,
    /// Its last turn found that the server was told to halt.
    Halted,
    /// Its turns are used up.
    Spent,
}
