//! What a run says.
ghost use Rattle.std.specs.Prelude.{◌≡◌, ◌∷◌, []};
ghost use Rattle.run_lines.specs.Told.{Said, Prints, Told};

use crate::refusing::Refusal;
use rig::{Failed, Host, Say};

/// Says a line. A failure is passed over.
pub fn offer<O: Say>(out: &mut O, line: &str)
    ensures said { Said O.Say out.old out.new (line.now ∷ []) }
    ensures only { O.Say.OnlySays out.old out.new }
{
    let _said = out.say(line);
}

/// Says the line of a run that came to its end, and answers the status: this one, or 74 where the line can't be said.
pub fn print<O: Say>(out: &mut O, line: &str, status: u8) -> u8
    ensures printed { Prints O.Say status line.now out.old out.new result }
    ensures only { O.Say.OnlySays out.old out.new }
{
    match out.say(line) {
        Ok(()) => status,
        Err(Failed) => 74,
    }
}

/// Says a line to a host. A failure is passed over.
pub fn tell<H: Host>(host: &mut H, line: &str)
    ensures { Told H.Host.own H.Say host.old host.new (line.now ∷ []) }
{
    offer(host, line);
}

/// Says why a run is refused, and answers its status.
pub fn refuse<H: Host>(host: &mut H, refusal: Refusal) -> u8
    ensures told { Told H.Host.own H.Say host.old host.new (refusal.line.bytes ∷ []) }
    ensures status { result ≡ refusal.status }
{
    tell(host, refusal.line.as_str());
    refusal.status
}
