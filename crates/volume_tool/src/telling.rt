//! What a run says to its host, and the refusals of sizes.
ghost use Rattle.run_lines.specs.Refusals.{Refuses};
ghost use Rattle.volume_tool.specs.Course.{make_line, make_status};
ghost use Rattle.volume_tool.specs.Told.{Tells};

use crate::lines::small_line;
use rig::{Failed, Host};
use run_lines::{Refusal, device_failed, line_of, no_memory};
use v7_make::MakeFault;

/// What is said where the words aren't of the grammar.
pub const USAGE: &str = "usage: v7tool mkfs|check|recover|drill ..";

/// Says the line of a run that was done. The status is 0, or 74 where the line can't be said.
pub fn answer<H: Host>(host: &mut H, line: &str) -> u8
    ensures { Tells H.Host.own H.Say 0 line.now host.old host.new result }
{
    match host.say(line) {
        Ok(()) => 0,
        Err(Failed) => 74,
    }
}

/// No volume was made: 65 for its sizes, 74 or 75.
pub fn make_refusal(fault: MakeFault) -> Refusal
    ensures { Refuses (make_status fault) (make_line fault) result }
{
    match fault {
        MakeFault::TooSmall { need, have } => Refusal {
            status: 65,
            line: small_line(need, have),
        },
        MakeFault::TooLarge => Refusal {
            status: 65,
            line: line_of("too large"),
        },
        MakeFault::Failed => device_failed(0),
        MakeFault::NoMemory => no_memory(),
    }
}
