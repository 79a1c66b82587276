//! What a run says of its end.
ghost use Rattle.std.specs.Prelude.{◌≡◌, ◌≤◌, ◌+◌, length};
ghost use Rattle.nfs_server.specs.Course.{closing_lines, closing_status, end_lines, end_status, first_failed, last_lines, stopped_lines};
ghost use Rattle.run_lines.specs.Told.{Told};
ghost use Rattle.server_volumes.specs.Stopped.{fails};

use crate::lines::numbers_line;
use nfs_worker::{Ended, Numbers};
use rig::Host;
use run_lines::{device_line, tell};
use server_volumes::{Stopped, stopped_line};

/// What is said where the words aren't of the grammar.
pub const USAGE: &str =
    "usage: nfsd VOLUME.. [--workers N] [--turns T] [--port P] [--down] [--accept-loss]";

// Says how each volume was stopped; the first has this number.
fn tell_stopped<H: Host>(host: &mut H, number: u32, all: &[Stopped])
    requires { number + length all.now ≤ 4 }
    ensures { Told H.Host.own H.Say host.old host.new (stopped_lines number all.now) }
{
    if let [stopped, rest @ ..] = all {
        let line = stopped_line(number, stopped.state, stopped.dirty);
        tell(host, line.as_str());
        tell_stopped(host, number + 1, rest);
    }
}

// Whether a device failed in stopping: the free chain isn't written, or something stays dirty.
fn has_failed(stopped: &Stopped) -> bool
    ensures { result ≡ fails stopped.now }
{
    stopped.unwritten || stopped.dirty > 0
}

// The number of the first of these volumes that a device failed in stopping; the first of all has this number.
fn first_failed(number: u32, all: &[Stopped]) -> Option<u32>
    requires { number + length all.now ≤ 4 }
    ensures { result ≡ first_failed number all.now }
{
    match all {
        [] => None,
        [stopped, ..] if has_failed(stopped) => Some(number),
        [_, rest @ ..] => first_failed(number + 1, rest),
    }
}

// Says the last line by the worker's end, and answers the status.
fn tell_way<H: Host>(host: &mut H, ended: Ended) -> u8
    ensures told { Told H.Host.own H.Say host.old host.new (end_lines ended) }
    ensures status { result ≡ end_status ended }
{
    match ended {
        Ended::Closed => 0,
        Ended::Halted => 0,
        Ended::Spent => {
            tell(host, "turns spent");
            72
        }
    }
}

// Says the last line, by the worker's end unless a device failed in stopping, and answers the status.
fn tell_end<H: Host>(host: &mut H, failed: Option<u32>, ended: Ended) -> u8
    ensures told { Told H.Host.own H.Say host.old host.new (last_lines ended failed) }
    ensures status { result ≡ closing_status ended failed }
{
    match failed {
        Some(number) => {
            tell(host, device_line(number).as_str());
            74
        }
        None => tell_way(host, ended),
    }
}

/// Says the closing lines of volumes that were stopped, and answers the status.
pub fn close<H: Host>(host: &mut H, all: &[Stopped], ended: Ended, numbers: Numbers) -> u8
    requires { length all.now ≤ 4 }
    ensures told { Told H.Host.own H.Say host.old host.new (closing_lines all.now ended numbers.received numbers.answered) }
    ensures status { result ≡ closing_status ended (first_failed 0 all.now) }
{
    tell_stopped(host, 0, all);
    tell(host, numbers_line(numbers).as_str());
    tell_end(host, first_failed(0, all), ended)
}
