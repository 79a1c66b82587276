//! What the options say.
ghost use Rattle.std.specs.Prelude.{◌≡◌, ◌≤◌, IfSome};
ghost use Rattle.std.specs.Option.{option_map};
ghost use Rattle.clap.specs.Words.{found_of, rows_of};
ghost use Rattle.server_words.specs.Words.{flag_in, options_in};
ghost use Rattle.server_words.specs.Reading.{HaveRanges, options_read};

use crate::command::{ACCEPT_LOSS, DOWN, PORT, TURNS, WORKERS, text_of};
use crate::numbers::{Bounds, number_in};
use clap::ArgMatches;

/// What the options say.
#[derive(Clone, Copy)]
pub struct Options {
    /// How many workers serve: 1.
    pub workers: u32,
    /// How many events each worker takes at the most, from 1 to 1,000,000,000.
    pub turns: u64,
    /// The port, from 1 to 65,535.
    pub port: u16,
    /// Whether the volumes stay DOWN.
    pub down: bool,
    /// Whether it is accepted that a board lost its memory.
    pub accept_loss: bool,
}

const OF_WORKERS: Bounds = Bounds {
    least: 1,
    most: 1,
    default: 1,
};

const OF_TURNS: Bounds = Bounds {
    least: 1,
    most: 1_000_000_000,
    default: 1_000_000,
};

const OF_PORT: Bounds = Bounds {
    least: 1,
    most: 65_535,
    default: 2049,
};

// Whether this flag stands.
fn has_flag(matches: &ArgMatches<'_>, name: &str) -> bool
    ensures { result ≡ flag_in name.now (rows_of (found_of matches.now)) }
{
    match text_of(matches, name) {
        Some(text) => text == "true",
        None => false,
    }
}

// The options, if each number is one.
pub(crate) fn read_options(matches: &ArgMatches<'_>) -> Option<Options>
    ensures options { option_map options_read result ≡ options_in (rows_of (found_of matches.now)) }
    ensures within { IfSome result HaveRanges }
{
    let workers = number_in(OF_WORKERS, text_of(matches, WORKERS))?;
    let turns = number_in(OF_TURNS, text_of(matches, TURNS))?;
    let port = number_in(OF_PORT, text_of(matches, PORT))?;
    Some(Options {
        workers,
        turns: turns as u64,
        port: port as u16,
        down: has_flag(matches, DOWN),
        accept_loss: has_flag(matches, ACCEPT_LOSS),
    })
}
