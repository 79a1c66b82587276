//! The words of the command line.
ghost use Rattle.std.specs.Prelude.{◌≡◌, IfSome, map, string_bytes};
ghost use Rattle.presto_rpc.specs.Sending.{IsAsked};
ghost use Rattle.presto_control.specs.Words.{on_volume, asked_by};

use presto_rpc::Control;
use run_lines::read_number;
use stable::Command;

/// The highest number of a volume.
const LAST_VOLUME: u32 = 3;

// What is asked of a volume.
fn on_volume(verb: &str, volume: u32) -> Option<Control>
    ensures asked { result ≡ on_volume verb.now volume }
    ensures good { IfSome result IsAsked }
{
    let command = match verb {
        "up" => Command::Up,
        "down" => Command::Down,
        "flush" => Command::Flush,
        "reset" => Command::Reset,
        "status" => return Some(Control::Status { volume }),
        _ => return None,
    };
    Some(Control::Command { volume, command })
}

/// Reads the words: `up V`, `down V`, `flush V`, `reset V` or `status V`, with a volume from 0 to 3, or `halt`. A number has one to ten decimal digits.
pub fn read_words(words: &[String]) -> Option<Control>
    ensures asked { result ≡ asked_by (map string_bytes words.now) }
    ensures good { IfSome result IsAsked }
{
    match words {
        [verb] => {
            if verb.as_str() == "halt" {
                Some(Control::Halt)
            } else {
                None
            }
        }
        [verb, volume] => on_volume(verb.as_str(), read_number(volume.as_bytes(), LAST_VOLUME)?),
        _ => None,
    }
}
