//! A run, from its words to its status.
ghost use Rattle.std.specs.Prelude.{◌≡◌, ◌↔◌, None, map, string_bytes};
ghost use Rattle.presto_control.specs.Running.{Closes, Outcome};
ghost use Rattle.presto_control.specs.Words.{asked_by};

use crate::asking::ask;
use crate::lines::{answer_line, answer_status};
use crate::waiting::Ending;
use crate::words::read_words;
use rig::{Address, Link, Say};
use run_lines::{offer, print};

/// What is said where the words aren't of the grammar.
pub const USAGE: &str = "usage: prestoctl ADDRESS up|down|flush|reset|status|halt [V]";

/// What is said where the link failed.
pub const LINK_FAILED: &str = "link failed";

// Says how the call ended, and answers the status.
fn close<O: Say>(ending: Ending, out: &mut O) -> u8
    ensures closes { Closes O.Say ending out.old out.new result }
    ensures only { O.Say.OnlySays out.old out.new }
{
    match ending {
        Ending::Replied(answer) => {
            let line = answer_line(answer);
            print(out, line.as_str(), answer_status(answer))
        }
        Ending::Silent => print(out, "no answer", 3),
        Ending::Broken => {
            offer(out, LINK_FAILED);
            66
        }
    }
}

/// Asks the server at that address for what the words say, by one datagram of user 0, waits for the reply, says one line, and answers the status of the
/// program.
///
/// - 0: it was done, or the status of a volume came. 1: the server answers otherwise, as the line says.
/// - 3: five times nothing came, 64 other datagrams came, or the link ended, before a reply with the call's transaction number.
/// - 64: the words aren't of the grammar; nothing was sent. 66: the link failed.
/// - 74: the line of a run that would be 0, 1 or 3 can't be said. At the other statuses that is passed over.
///
/// It takes no memory.
pub fn control<L: Link, O: Say>(words: &[String], to: &Address, link: &mut L, out: &mut O) -> u8
    // The words alone decide on the usage line.
    ensures usage { result ≡ 64 ↔ asked_by (map string_bytes words.now) ≡ None }
    // The datagram that was sent, what was heard until the wait ended, and the status and the line by how it ended.
    ensures outcome { Outcome L.Link O.Say (asked_by (map string_bytes words.now)) to.now link.old link.new out.old out.new result }
    // One line was to be said, and nothing else was asked of who says it.
    ensures only { O.Say.OnlySays out.old out.new }
{
    let Some(asked) = read_words(words) else {
        offer(out, USAGE);
        return 64;
    };
    let ending = ask(&asked, to, link);
    close(ending, out)
}
