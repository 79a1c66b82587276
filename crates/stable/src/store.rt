ghost use Rattle.std.specs.Prelude.{◌≡◌, ◌<◌, ◌≤◌, ◌^◌, ℕ, [], set, get_or, OnOk};
ghost use Rattle.stable.specs.Counts.{HasCause};
ghost use Rattle.stable.specs.Moments.{IsClocked, LeavesOnly};
ghost use Rattle.stable.specs.States.{ArePuts};
ghost use Rattle.stable.specs.Store.{Image, HasSectors, Same, SectorPut, KeepsName, StaysOpenable};
ghost use Rattle.stable.specs.declared.snapshot.Snapshot.{Snapshot};
ghost use Rattle.stable.specs.declared.state.State.TheVariants as state;

use crate::Failed;

/// A store of sectors of 512 bytes. A sector that was put stays, whatever crash comes later.
///
/// A crash is one that the store can be opened after with nothing lost: what it takes, the store can do without.
pub trait Stable {
    /// Whether stores of this type tell what they hold.
    ghost tells: { Type 0 };

    /// The sectors, where they are told.
    ghost image: { Self → Image };

    /// The moment, as a number that doesn't fall.
    ghost moment: { Self → ℕ };

    /// The images that a crash at some moment from that one on may leave, in a call or between two.
    ghost left_since: { Self → ℕ → Image → Type 0 };

    /// Whether what each crash from that moment on leaves can be opened again.
    ghost opens_since: { Self → ℕ → Type 0 };

    /// How many sectors there are.
    ghost sector_count: { Self → ℕ };

    /// How often a device has failed, up to 2 to the 64 less 1.
    ghost faults: { Self → ℕ };

    /// The state and the counts.
    ghost snapshot_of: { Self → Snapshot };

    /// The number of sectors. It never changes.
    fn sectors(&self) -> u32
        ensures { result ≡ sector_count self.now };

    /// Reads a sector. After Failed `into` holds any bytes.
    fn get(&mut self, sector: u32, into: &mut [u8; 512]) -> Result<(), Failed>
        requires { sector < sector_count self.old }
        ensures done { tells → OnOk result (into.new ≡ get_or (image self.old) sector []) }
        ensures image { image self.new ≡ image self.old }
        ensures crash { LeavesOnly moment left_since self.old self.new (Same (image self.old)) }
        ensures opens { StaysOpenable opens_since moment self.old self.new }
        ensures cause { HasCause (faults self.old) (faults self.new) result }
        ensures sectors { sector_count self.new ≡ sector_count self.old }
        ensures snapshot { snapshot_of self.new ≡ snapshot_of self.old };

    /// Puts a sector. After Failed that sector is old or new.
    fn put(&mut self, sector: u32, bytes: &[u8; 512]) -> Result<(), Failed>
        requires { sector < sector_count self.old }
        ensures done { tells → OnOk result (image self.new ≡ set (image self.old) sector bytes.now) }
        ensures crash { LeavesOnly moment left_since self.old self.new (SectorPut sector bytes.now (image self.old)) }
        ensures opens { KeepsName sector bytes.now (image self.old) → StaysOpenable opens_since moment self.old self.new }
        ensures cause { HasCause (faults self.old) (faults self.new) result }
        ensures sectors { sector_count self.new ≡ sector_count self.old }
        ensures snapshot { ArePuts 1 (faults self.old) (faults self.new) (snapshot_of self.old) (snapshot_of self.new) };

    /// The image now is one of those left since any earlier moment, the only one since now, and images are told only where contents are.
    ghost clocked: { IsClocked tells image moment left_since };

    /// Each image is whole.
    ghost shape: { (s : Self) (t : ℕ) (i : Image) → left_since s t i → HasSectors (sector_count s) i };

    /// What can be opened again after a crash since a moment can be so after one since a later moment.
    ghost opens_later: { (s : Self) (t u : ℕ) → t ≤ u → opens_since s t → opens_since s u };

    /// The count of puts has 64 bits.
    ghost counted: { (s : Self) → (snapshot_of s).puts < 2 ^ 64 };

    /// In DOWN nothing is dirty.
    ghost down: { (s : Self) → (snapshot_of s).state ≡ state.Down → (snapshot_of s).dirty ≡ 0 };
}
