// How a host in memory counts what it is asked for, and what it refuses.
ghost use Rattle.std.specs.Prelude.{◌≡◌, ◌≤◌, Some, IsErrOf, IfOk, true, false};
ghost use Rattle.stable.specs.Counts.{Rose, one_more};
ghost use Rattle.rig.specs.Hosts.{HostCause};
ghost use Rattle.rig_mem.specs.Hosts.{IsAsked, not_asked};

use rig::HostFault;

// How often it was asked for a rig or a post, which asking finds no memory, and how often it gave none.
#[derive(Drop)]
pub struct Asks {
    made: u64,
    starved: Option<u64>,
    faults: u64,
}

impl Asks {
    pub fn new() -> Asks
        ensures { result ≡ not_asked }
    {
        Asks {
            made: 0,
            starved: None,
            faults: 0,
        }
    }

    // Lets the asking of that number find no memory.
    pub fn starve(&mut self, number: u64)
        ensures { self.new ≡ record self.old { starved = Some number } }
    {
        self.starved = Some(number);
    }

    // Counts one asking more, where nothing may be left to give.
    pub fn next(&mut self, missing: bool) -> Result<(), HostFault>
        ensures asked { IsAsked self.old self.new result }
        ensures failed { IsErrOf result HostFault.Failed → missing ≡ true }
        ensures left { IfOk result (λ _. missing ≡ false) }
        ensures cause { HostCause self.old.faults self.new.faults result }
    {
        self.made = self.made.saturating_add(1);
        if let Some(number) = self.starved
            && number == self.made
        {
            self.faults = self.faults.saturating_add(1);
            return Err(HostFault::NoMemory);
        }
        if missing {
            return Err(self.fail());
        }
        Ok(())
    }

    // Nothing is given.
    pub fn fail(&mut self) -> HostFault
        ensures failed { result ≡ HostFault.Failed }
        ensures counted { self.new ≡ record self.old { faults = one_more self.old.faults } }
        ensures later { self.old.faults ≤ self.new.faults }
        ensures rose { Rose self.old.faults self.new.faults }
    {
        self.faults = self.faults.saturating_add(1);
        HostFault::Failed
    }
}
