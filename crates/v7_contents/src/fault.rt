// Why a body wasn't read.
use stable::{Failed, NoMemory};
use std::alloc::AllocError;

/// Why a body wasn't read. Nothing was changed.
#[derive(Clone, Copy, PartialEq, Eq)]
pub enum ReadFault {
    /// The device failed.
    Failed,
    /// There was no memory.
    NoMemory,
}

impl From<Failed> for ReadFault {
    ghost use Rattle.std.specs.Prelude.{◌≡◌};
    ghost use Rattle.v7_contents.specs.declared.fault.ReadFault.TheVariants as fault;

    ghost from_gives = { λ _ e. e ≡ fault.Failed };

    fn from(_: Failed) -> Self {
        ReadFault::Failed
    }
}

impl From<AllocError> for ReadFault {
    ghost use Rattle.std.specs.Prelude.{◌≡◌};
    ghost use Rattle.v7_contents.specs.declared.fault.ReadFault.TheVariants as fault;

    ghost from_gives = { λ _ e. e ≡ fault.NoMemory };

    fn from(_: AllocError) -> Self {
        ReadFault::NoMemory
    }
}

impl From<NoMemory> for ReadFault {
    ghost use Rattle.std.specs.Prelude.{◌≡◌};
    ghost use Rattle.v7_contents.specs.declared.fault.ReadFault.TheVariants as fault;

    ghost from_gives = { λ _ e. e ≡ fault.NoMemory };

    fn from(_: NoMemory) -> Self {
        ReadFault::NoMemory
    }
}
