use rig::Failed;
use std::alloc::AllocFailed;
use thiserror::Error;

/// Why a board wasn't read. Nothing on it was changed.
#[derive(Clone, Copy, Debug, PartialEq, Eq, Error)]
pub enum BoardFault {
    /// The board lost its memory, so that its words say nothing.
    #[error("the board lost its memory")]
    Lost,
    /// The board has another first word than the mark of a formatted board.
    #[error("the board is not formatted: its first word is {word:#018x}")]
    NotFormatted { word: u64 },
    /// The board has the name of another volume. `board` is the name in its low six bytes, `volume` the one that was asked for.
    #[error("the board is of the volume {}, and not of {}", .board.escape_ascii(), .volume.escape_ascii())]
    WrongVolume { board: [u8; 6], volume: [u8; 6] },
    /// This entry, counted from 0, is neither free nor that of a sector and a buffer, or a lower entry has its sector or its buffer.
    #[error("entry {index} of the board is damaged: its word is {word:#018x}")]
    BadEntry { index: u32, word: u64 },
    /// The board failed.
    #[error("the board failed")]
    Failed,
    /// There was no memory for the entries.
    #[error("there is no memory for the entries of the board")]
    NoMemory,
}

impl From<Failed> for BoardFault {
    ghost use Rattle.std.specs.Prelude.{◌≡◌};
    ghost use Rattle.nvram_map.specs.declared.fault.BoardFault.TheVariants as fault;

    ghost from_gives = { λ _ e. e ≡ fault.Failed };

    fn from(_: Failed) -> Self {
        BoardFault::Failed
    }
}

impl<T: Drop> From<AllocFailed<T>> for BoardFault {
    ghost use Rattle.std.specs.Prelude.{◌≡◌};
    ghost use Rattle.nvram_map.specs.declared.fault.BoardFault.TheVariants as fault;

    ghost from_gives = { λ _ e. e ≡ fault.NoMemory };

    fn from(_: AllocFailed<T>) -> Self {
        BoardFault::NoMemory
    }
}
