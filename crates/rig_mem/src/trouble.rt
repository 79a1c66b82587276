// Which device calls of a rig in memory fail.
ghost use Rattle.std.specs.Prelude.{◌≡◌, ◌≤◌, ◌+◌, OnOk, OnErr};
ghost use Rattle.stable.specs.Counts.{HasCause, one_more};
ghost use Rattle.rig_mem.specs.Troubles.{plan_of, no_plan, called, with_failure, with_broken, with_stop, with_stop_after, healed, fate_of, fault_of, is_over, cut_at, broken_at, failing_at};

use crate::fault::Fault;
use rig::NoMemory;
use std::alloc::Global;

// A device call that is to fail; calls are numbered from 1.
#[derive(Clone, Copy)]
pub struct Planned {
    pub number: u64,
    pub newer: bool,
}

#[derive(Drop)]
pub struct Trouble {
    faults: u64,
    made: u64,
    failing: Vec<Planned>,
    broken: Vec<u32>,
    stop: Option<Planned>,
}

impl Trouble {
    pub fn new(alloc: Global) -> Self
        ensures faults { result.faults ≡ 0 }
        ensures plan { plan_of result ≡ no_plan }
    {
        Trouble {
            faults: 0,
            made: 0,
            failing: Vec::new(alloc),
            broken: Vec::new(alloc),
            stop: None,
        }
    }

    // How many device calls were counted.
    pub fn made(&self) -> u64
        ensures { result ≡ (plan_of self.now).made }
    {
        self.made
    }

    // As new.
    pub fn restart(&mut self)
        ensures faults { self.new.faults ≡ 0 }
        ensures plan { plan_of self.new ≡ no_plan }
    {
        self.faults = 0;
        self.made = 0;
        self.failing.clear();
        self.heal();
        self.stop = None;
    }

    pub fn fail(&mut self, number: u64, newer: bool) -> Result<(), NoMemory>
        ensures ok { OnOk result (plan_of self.new ≡ with_failure (plan_of self.old) number newer) }
        ensures no_memory { OnErr result (plan_of self.new ≡ plan_of self.old) }
        ensures faults { self.new.faults ≡ self.old.faults }
    {
        if number <= self.made {
            return Ok(());
        }
        self.failing.push(Planned { number, newer })?;
        Ok(())
    }

    pub fn break_sector(&mut self, sector: u32) -> Result<(), NoMemory>
        ensures ok { OnOk result (plan_of self.new ≡ with_broken (plan_of self.old) sector) }
        ensures no_memory { OnErr result (plan_of self.new ≡ plan_of self.old) }
        ensures faults { self.new.faults ≡ self.old.faults }
    {
        self.broken.push(sector)?;
        Ok(())
    }

    pub fn heal(&mut self)
        ensures plan { plan_of self.new ≡ healed (plan_of self.old) }
        ensures faults { self.new.faults ≡ self.old.faults }
    {
        self.broken.clear();
    }

    pub fn stop_at(&mut self, number: u64, newer: bool)
        ensures plan { plan_of self.new ≡ with_stop (plan_of self.old) number newer }
        ensures faults { self.new.faults ≡ self.old.faults }
    {
        if number <= self.made || cuts_by(self.stop, self.made) {
            return;
        }
        self.stop = Some(Planned { number, newer });
    }

    pub fn stop_after(&mut self, calls: u64, newer: bool)
        ensures plan { plan_of self.new ≡ with_stop_after (plan_of self.old) calls newer }
        ensures faults { self.new.faults ≡ self.old.faults }
    {
        if calls >= u64::MAX - self.made {
            return;
        }
        self.stop_at(self.made + calls + 1, newer);
    }

    // A call failed that was not planned to.
    pub fn count_fault(&mut self)
        ensures later { self.old.faults ≤ self.new.faults }
        ensures faults { self.new.faults ≡ one_more self.old.faults }
        ensures plan { plan_of self.new ≡ plan_of self.old }
    {
        self.faults = self.faults.saturating_add(1);
    }

    // Counts one more device call, perhaps a write of a sector, and says what becomes of it.
    pub fn next(&mut self, sector: Option<u32>) -> Result<(), Fault>
        ensures fate { result ≡ fate_of (plan_of self.old) sector }
        ensures plan { plan_of self.new ≡ called (plan_of self.old) }
        ensures cause { HasCause self.old.faults self.new.faults result }
    {
        let fault = self.fault(sector);
        self.made = self.made.saturating_add(1);
        match fault {
            Some(fault) => {
                self.faults = self.faults.saturating_add(1);
                Err(fault)
            }
            None => Ok(()),
        }
    }

    fn fault(&self, sector: Option<u32>) -> Option<Fault>
        ensures { result ≡ fault_of (plan_of self.now) sector }
    {
        if cuts_by(self.stop, self.made) {
            return Some(Fault::Nothing);
        }
        let number = self.made.saturating_add(1);
        broken_fault(&self.broken, sector)
            .or(cut_fault(self.stop, number))
            .or(planned_fault(&self.failing, number))
    }
}

// Whether one of so many calls was cut.
fn cuts_by(stop: Option<Planned>, made: u64) -> bool
    ensures { result ≡ is_over stop made }
{
    match stop {
        Some(stop) => stop.number <= made,
        None => false,
    }
}

fn cut_fault(stop: Option<Planned>, number: u64) -> Option<Fault>
    ensures { result ≡ cut_at stop number }
{
    let stop = stop?;
    if stop.number != number {
        return None;
    }
    Some(Fault::Leaves { newer: stop.newer })
}

fn broken_fault(broken: &[u32], sector: Option<u32>) -> Option<Fault>
    ensures { result ≡ broken_at broken.now sector }
{
    let sector = sector?;
    if broken.contains(&sector) {
        return Some(Fault::Leaves { newer: false });
    }
    None
}

fn planned_fault(failing: &[Planned], number: u64) -> Option<Fault>
    ensures { result ≡ failing_at failing.now number }
{
    failing
        .iter()
        .find(|planned| planned.number == number)
        .map(|planned| Fault::Leaves {
            newer: planned.newer,
        })
}
