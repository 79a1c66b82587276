// What may be asked of a rig in memory: which of its calls fail, and what its battery says.
ghost use Rattle.std.specs.Prelude.{◌≡◌, Some, OnOk, OnErr};
ghost use Rattle.rig.specs.Looked.{Untouched};

use super::MemRig;
use rig::{Battery, NoMemory, Rig, SteeredRig};

impl MemRig {
    ghost use Rattle.rig_mem.specs.Troubles.{with_failure, with_broken, with_stop, healed};
    ghost use Rattle.rig_mem.specs.Rigs.{mem_plan, mem_says, SameDevices};

    /// Lets the device call of that number fail, and leave the newer state or the older. A number that has passed changes
    /// nothing; of two with one number the first counts. After NoMemory nothing is changed.
    pub fn fail(&mut self, number: u64, newer: bool) -> Result<(), NoMemory>
        ensures ok { OnOk result (mem_plan self.new ≡ with_failure (mem_plan self.old) number newer) }
        ensures no_memory { OnErr result (mem_plan self.new ≡ mem_plan self.old) }
        ensures says { mem_says self.new ≡ mem_says self.old }
        ensures devices { SameDevices self.old self.new }
    {
        self.trouble.fail(number, newer)
    }

    /// Lets every write of the sector fail and leave it old, until `heal`. After NoMemory nothing is changed.
    pub fn break_sector(&mut self, sector: u32) -> Result<(), NoMemory>
        ensures ok { OnOk result (mem_plan self.new ≡ with_broken (mem_plan self.old) sector) }
        ensures no_memory { OnErr result (mem_plan self.new ≡ mem_plan self.old) }
        ensures says { mem_says self.new ≡ mem_says self.old }
        ensures devices { SameDevices self.old self.new }
    {
        self.trouble.break_sector(sector)
    }

    /// Mends all broken sectors.
    pub fn heal(&mut self)
        ensures plan { mem_plan self.new ≡ healed (mem_plan self.old) }
        ensures says { mem_says self.new ≡ mem_says self.old }
        ensures devices { SameDevices self.old self.new }
    {
        self.trouble.heal();
    }

    /// Cuts the device call of that number: it leaves the newer state or the older, and every later call fails without
    /// effect. It replaces a cut that hasn't come yet; after one that came, or for a number that has passed, nothing changes.
    pub fn stop_at(&mut self, number: u64, newer: bool)
        ensures plan { mem_plan self.new ≡ with_stop (mem_plan self.old) number newer }
        ensures says { mem_says self.new ≡ mem_says self.old }
        ensures devices { SameDevices self.old self.new }
    {
        self.trouble.stop_at(number, newer);
    }

    /// Lets every battery reading from that number on be Low. Readings are numbered from 1.
    pub fn low_from(&mut self, reading: u64)
        ensures says { mem_says self.new ≡ record (mem_says self.old) { low_from = Some reading } }
        ensures plan { mem_plan self.new ≡ mem_plan self.old }
        ensures devices { SameDevices self.old self.new }
    {
        self.low_from = Some(reading);
    }

    /// Sets what the battery says at its next readings.
    pub fn set_battery(&mut self, battery: Battery)
        ensures says { mem_says self.new ≡ record (mem_says self.old) { battery = battery } }
        ensures plan { mem_plan self.new ≡ mem_plan self.old }
        ensures devices { SameDevices self.old self.new }
    {
        self.battery = battery;
    }
}

impl SteeredRig for MemRig {
    ghost use Rattle.rig_mem.specs.Troubles.{with_stop_after};
    ghost use Rattle.rig_mem.specs.Rigs.{mem_plan, mem_says};

    fn set_battery(&mut self, battery: Battery)
        ensures says { mem_says self.new ≡ record (mem_says self.old) { battery = battery } }
        ensures plan { mem_plan self.new ≡ mem_plan self.old }
        ensures untouched { Untouched ⟦<MemRig as Rig>⟧ self.old self.new }
    {
        MemRig::set_battery(self, battery);
    }

    fn stop_after(&mut self, calls: u64, newer: bool)
        ensures plan { mem_plan self.new ≡ with_stop_after (mem_plan self.old) calls newer }
        ensures says { mem_says self.new ≡ mem_says self.old }
        ensures untouched { Untouched ⟦<MemRig as Rig>⟧ self.old self.new }
    {
        self.trouble.stop_after(calls, newer);
    }
}
