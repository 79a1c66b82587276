ghost use Rattle.std.specs.Prelude.{◌≡◌};

use rig::{Pauser, Point};

/// Never waits, and has nothing to tell.
#[derive(Drop)]
pub struct StillPauser;

impl StillPauser {
    ghost use Rattle.rig_mem.specs.declared.pauser.StillPauser.{StillPauser};

    /// All of them are the same.
    pub fn new() -> StillPauser
        ensures { (other : StillPauser) → other ≡ result }
    {
        StillPauser
    }
}

impl Pauser for StillPauser {
    fn pause(&mut self)
        ensures { self.new ≡ self.old }
    {}

    fn gate(&mut self, _point: Point)
        ensures { self.new ≡ self.old }
    {}
}
