ghost use Rattle.rig.specs.Looked.{Untouched};

use crate::{Battery, Rig};

/// A rig whose later calls can be steered. Steering changes nothing that the contract of a rig names.
pub trait SteeredRig: Rig {
    /// Sets what the battery says at its next readings.
    fn set_battery(&mut self, battery: Battery)
        ensures { Untouched Self.Rig self.old self.new };

    /// Cuts the device call that comes after so many more: it leaves the newer state, or the older. Each call after it fails without effect.
    fn stop_after(&mut self, calls: u64, newer: bool)
        ensures { Untouched Self.Rig self.old self.new };
}
