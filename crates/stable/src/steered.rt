ghost use Rattle.stable.specs.Looked.{Untouched};

use crate::{Battery, Tended};

/// A store whose later calls can be steered. Steering changes nothing that the contracts of a store name.
pub trait SteeredStore: Tended {
    /// Sets what the battery says at its next readings.
    fn set_battery(&mut self, battery: Battery)
        ensures { Untouched Self.Stable self.old self.new };

    /// Cuts the device call that comes after so many more: it leaves the newer state, or the older. Each call after it fails without effect.
    fn stop_after(&mut self, calls: u64, newer: bool)
        ensures { Untouched Self.Stable self.old self.new };
}
