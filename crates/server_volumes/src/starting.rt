//! How an open volume is started.
ghost use Rattle.stable.specs.Looked.{KeepsImage};
ghost use Rattle.volume.specs.Mounted.{store_of, SameButStore};
ghost use Rattle.volume.specs.Rests.{Rests};
ghost use Rattle.run_lines.specs.Told.{Told};
ghost use Rattle.server_volumes.specs.Lines.{loss_lines};
ghost use Rattle.server_volumes.specs.Opens.{Begins};
ghost use Rattle.server_volumes.specs.Starts.{IsStarted};

use crate::lines::{loss_line, opened_line};
use rig::Host;
use run_lines::tell;
use stable::{Command, Tended};
use volume::Volume;

/// What the opening of disk and board came to.
#[derive(Clone, Copy)]
pub struct Recovery {
    /// How many entries of the board were flushed.
    pub recovered: u32,
    /// The board had lost its memory, which was accepted.
    pub lost: bool,
}

// Commands a volume that was opened Up, unless it is to stay DOWN.
fn go_up<S: Tended>(volume: &mut Volume<S>, down: bool)
    requires rest { Rests S.Stable volume.old }
    ensures rest { Rests S.Stable volume.new }
    ensures kept { SameButStore volume.old volume.new }
    ensures keeps { KeepsImage S.Stable (store_of volume.old) (store_of volume.new) }
    ensures started { IsStarted down (S.snapshot_of (store_of volume.old)) (S.snapshot_of (store_of volume.new)) }
{
    if !down {
        let _answer = volume.command(Command::Up);
    }
}

// Says that the loss of the board of a volume was accepted, if it was.
fn tell_loss<H: Host>(host: &mut H, number: u32, lost: bool)
    ensures { Told H.Host.own H.Say host.old host.new (loss_lines number lost) }
{
    if lost {
        tell(host, loss_line(number).as_str());
    }
}

/// Starts a volume that was opened, and says so: its board's loss, if one was accepted, and then its name, its state, and how many entries were recovered.
pub fn begin<H: Host, S: Tended>(
    host: &mut H,
    volume: &mut Volume<S>,
    number: u32,
    recovery: Recovery,
    down: bool,
)
    requires rest { Rests S.Stable volume.old }
    ensures begun { Begins H.Host.own H.Say S.Stable down recovery number host.old host.new volume.old volume.new }
{
    go_up(volume, down);
    tell_loss(host, number, recovery.lost);
    let state = volume.snapshot().state;
    let line = opened_line(number, &volume.name(), state, recovery.recovered);
    tell(host, line.as_str());
}
