// What the tests of a volume find.

use stable::{Failed, NoMemory};
use std::alloc::{AllocError, AllocFailed};

/// A kind of damage (docs/FORMATS.md, damage).
#[derive(Clone, Copy, Debug, PartialEq, Eq)]
pub enum Damage {
    /// The super-block's numbers.
    Sizes,
    /// The type of an inode.
    Kind,
    /// The size of an inode.
    Length,
    /// A block that an inode may not have at its place.
    Address,
    /// A block that an earlier place has.
    Shared,
    /// `.` and `..` of a directory.
    Dots,
    /// A slot of a directory.
    Slot,
}

/// Why an inspection or a repair gives nothing else.
#[derive(Clone, Copy, Debug, PartialEq, Eq)]
pub enum RepairFault {
    /// The volume can't be mended: the first test that fails, and its sector. Nothing was changed.
    Damaged { sector: u32, kind: Damage },
    /// The device failed. A repair may have mended some of the volume by then, and another one goes on with the rest.
    Failed,
    /// There was no memory. Nothing was changed.
    NoMemory,
}

impl From<Failed> for RepairFault {
    ghost use Rattle.std.specs.Prelude.{◌≡◌};
    ghost use Rattle.v7_damage.specs.declared.damage.RepairFault.TheVariants as fault;

    ghost from_gives = { λ _ e. e ≡ fault.Failed };

    fn from(_: Failed) -> Self {
        RepairFault::Failed
    }
}

impl From<AllocError> for RepairFault {
    ghost use Rattle.std.specs.Prelude.{◌≡◌};
    ghost use Rattle.v7_damage.specs.declared.damage.RepairFault.TheVariants as fault;

    ghost from_gives = { λ _ e. e ≡ fault.NoMemory };

    fn from(_: AllocError) -> Self {
        RepairFault::NoMemory
    }
}

impl<T: Drop> From<AllocFailed<T>> for RepairFault {
    ghost use Rattle.std.specs.Prelude.{◌≡◌};
    ghost use Rattle.v7_damage.specs.declared.damage.RepairFault.TheVariants as fault;

    ghost from_gives = { λ _ e. e ≡ fault.NoMemory };

    fn from(_: AllocFailed<T>) -> Self {
        RepairFault::NoMemory
    }
}

impl From<NoMemory> for RepairFault {
    ghost use Rattle.std.specs.Prelude.{◌≡◌};
    ghost use Rattle.v7_damage.specs.declared.damage.RepairFault.TheVariants as fault;

    ghost from_gives = { λ _ e. e ≡ fault.NoMemory };

    fn from(_: NoMemory) -> Self {
        RepairFault::NoMemory
    }
}
