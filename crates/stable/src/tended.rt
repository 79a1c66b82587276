ghost use Rattle.std.specs.Prelude.{◌≡◌};
ghost use Rattle.stable.specs.Looked.{KeepsImage};
ghost use Rattle.stable.specs.States.{IsPolled, IsFlushed, IsCommanded};

use crate::{Answer, Battery, Command, FlushAnswer, Snapshot, Stable};

/// A store whose battery is polled, whose dirty sectors are flushed, and which obeys commands. None of these calls changes the image, at any moment.
pub trait Tended: Stable {
    /// Reads the battery. Low leaves UP; Good ends an error by the battery once nothing is dirty.
    fn poll(&mut self) -> Battery
        ensures keeps { KeepsImage Self.Stable self.old self.new }
        ensures snapshot { IsPolled result (Self.snapshot_of self.old) (Self.snapshot_of self.new) };

    /// Tries to flush the oldest dirty sector.
    fn flush_one(&mut self) -> FlushAnswer
        ensures keeps { KeepsImage Self.Stable self.old self.new }
        ensures snapshot { IsFlushed result (Self.faults self.old) (Self.faults self.new) (Self.snapshot_of self.old) (Self.snapshot_of self.new) };

    /// Carries out a command.
    fn command(&mut self, command: Command) -> Answer
        ensures keeps { KeepsImage Self.Stable self.old self.new }
        ensures snapshot { IsCommanded command result (Self.faults self.old) (Self.faults self.new) (Self.snapshot_of self.old) (Self.snapshot_of self.new) };

    /// The state and the counts.
    fn snapshot(&self) -> Snapshot
        ensures { result ≡ Self.snapshot_of self.now };
}
