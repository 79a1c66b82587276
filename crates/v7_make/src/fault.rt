use stable::{Failed, NoMemory};
use thiserror::Error;

/// Why no volume was made.
#[derive(Clone, Copy, Debug, PartialEq, Eq, Error)]
pub enum MakeFault {
    /// So many sectors are needed for the inodes and the root, and there are only so many. Nothing was changed.
    #[error("the volume needs {need} sectors, and has {have}")]
    TooSmall { need: u32, have: u32 },
    /// More than 1,048,576 sectors or 65,528 inodes. Nothing was changed.
    #[error("the volume is too large")]
    TooLarge,
    /// A device failed; its object counted a fault. The sectors of the volume may have changed.
    #[error("a device failed")]
    Failed,
    /// There was no memory for the sets of free blocks and inodes. Nothing was changed.
    #[error("there is no memory to make a volume")]
    NoMemory,
}

impl From<Failed> for MakeFault {
    ghost use Rattle.std.specs.Prelude.{◌≡◌};
    ghost use Rattle.v7_make.specs.declared.fault.MakeFault.TheVariants as fault;

    ghost from_gives = { λ _ e. e ≡ fault.Failed };

    fn from(_: Failed) -> Self {
        MakeFault::Failed
    }
}

impl From<NoMemory> for MakeFault {
    ghost use Rattle.std.specs.Prelude.{◌≡◌};
    ghost use Rattle.v7_make.specs.declared.fault.MakeFault.TheVariants as fault;

    ghost from_gives = { λ _ e. e ≡ fault.NoMemory };

    fn from(_: NoMemory) -> Self {
        MakeFault::NoMemory
    }
}
