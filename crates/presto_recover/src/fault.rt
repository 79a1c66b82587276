use nvram_map::BoardFault;
use rig::Failed;
use stable::NoMemory;
use thiserror::Error;

/// Why a unit wasn't opened.
#[derive(Clone, Copy, Debug, PartialEq, Eq, Error)]
pub enum OpenFault {
    /// The board isn't one of the volume: it is lost, not formatted, of another volume, or an entry is damaged.
    #[error("{0}")]
    Board(BoardFault),
    /// The disk has no super-block, since it has so few sectors.
    #[error("the disk has no super-block, since it has {sectors} sectors")]
    NoSuper { sectors: u32 },
    /// A device failed.
    #[error("a device failed")]
    Failed,
    /// There was no memory for the entries, the cache or the last changes of the state.
    #[error("there is no memory for the board")]
    NoMemory,
}

impl From<Failed> for OpenFault {
    ghost use Rattle.std.specs.Prelude.{◌≡◌};
    ghost use Rattle.presto_recover.specs.declared.fault.OpenFault.TheVariants as fault;

    ghost from_gives = { λ _ e. e ≡ fault.Failed };

    fn from(_: Failed) -> Self {
        OpenFault::Failed
    }
}

impl From<NoMemory> for OpenFault {
    ghost use Rattle.std.specs.Prelude.{◌≡◌};
    ghost use Rattle.presto_recover.specs.declared.fault.OpenFault.TheVariants as fault;

    ghost from_gives = { λ _ e. e ≡ fault.NoMemory };

    fn from(_: NoMemory) -> Self {
        OpenFault::NoMemory
    }
}

impl From<BoardFault> for OpenFault {
    ghost use Rattle.std.specs.Prelude.{◌≡◌};
    ghost use Rattle.presto_recover.specs.Refused.{as_refusal};

    ghost from_gives = { λ f e. e ≡ as_refusal f };

    fn from(fault: BoardFault) -> Self {
        match fault {
            BoardFault::Failed => OpenFault::Failed,
            BoardFault::NoMemory => OpenFault::NoMemory,
            _ => OpenFault::Board(fault),
        }
    }
}
