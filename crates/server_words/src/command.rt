//! The command line as `clap` knows it.
ghost use Rattle.std.specs.Prelude.{◌≡◌, IfOk, false, map, string_bytes};
ghost use Rattle.std.specs.Option.{option_map};
ghost use Rattle.clap.specs.Words.{all_of, app_of, first_of, found_of, rows_of, rule_of};
ghost use Rattle.server_words.specs.Command.{accepted, bare, flag, nfsd, number, volumes};

use clap::error::ErrorKind;
use clap::{Arg, ArgAction, ArgMatches, Command};
use std::alloc::{AllocError, Global};

pub(crate) const VOLUME: &str = "volume";

pub(crate) const WORKERS: &str = "workers";

pub(crate) const TURNS: &str = "turns";

pub(crate) const PORT: &str = "port";

pub(crate) const DOWN: &str = "down";

pub(crate) const ACCEPT_LOSS: &str = "accept-loss";

// One to four words that stand together.
fn volume_arg<'a>(alloc: Global) -> Arg<'a>
    ensures local { result.global ≡ false }
    ensures rule { rule_of result ≡ volumes }
{
    Arg::new(alloc, VOLUME).required(true).num_args(1..=4)
}

// An option with one value, a text.
fn number_arg<'a>(alloc: Global, name: &'a str) -> Arg<'a>
    ensures local { result.global ≡ false }
    ensures rule { rule_of result ≡ number name.entry.now }
{
    Arg::new(alloc, name).long(name)
}

// A flag.
fn flag_arg<'a>(alloc: Global, name: &'a str) -> Arg<'a>
    ensures local { result.global ≡ false }
    ensures rule { rule_of result ≡ flag name.entry.now }
{
    Arg::new(alloc, name).long(name).action(ArgAction::SetTrue)
}

// A command without arguments: its words begin after the program's name, and help and version are off.
fn bare_command<'a>(alloc: Global) -> Command<'a>
    ensures { app_of result ≡ bare }
{
    Command::new(alloc, "nfsd")
        .no_binary_name(true)
        .disable_help_flag(true)
        .disable_version_flag(true)
}

// `nfsd` as a command.
fn command<'a>(alloc: Global) -> Result<Command<'a>, AllocError>
    ensures { IfOk result (λ command. app_of command ≡ nfsd) }
{
    bare_command(alloc)
        .arg(volume_arg(alloc))?
        .arg(number_arg(alloc, WORKERS))?
        .arg(number_arg(alloc, TURNS))?
        .arg(number_arg(alloc, PORT))?
        .arg(flag_arg(alloc, DOWN))?
        .arg(flag_arg(alloc, ACCEPT_LOSS))
}

// What stands in words that the command accepts.
pub(crate) fn parse<'a>(
    alloc: Global,
    words: &'a [String],
) -> Result<Option<ArgMatches<'a>>, AllocError>
    ensures { IfOk result (λ found. option_map (λ m. rows_of (found_of m)) found ≡ accepted (map string_bytes words.entry.now)) }
{
    let command = command(alloc)?;
    match command.try_get_matches_from(words) {
        Ok(matches) => Ok(Some(matches)),
        Err(error) if error.kind() == ErrorKind::OutOfMemory => Err(AllocError),
        Err(_) => Ok(None),
    }
}

// The text of this argument, or the first of several.
pub(crate) fn text_of<'a>(matches: &ArgMatches<'a>, name: &str) -> Option<&'a str>
    ensures { option_map (λ text. text.now) result ≡ first_of name.now (rows_of (found_of matches.now)) }
{
    matches.get_str(name)
}

// All texts of this argument.
pub(crate) fn texts_of<'b, 'a>(matches: &'b ArgMatches<'a>, name: &str) -> Option<&'b [&'a str]>
    ensures { option_map (λ texts. map (λ text. text.now) texts.now) result ≡ all_of name.now (rows_of (found_of matches.now)) }
{
    matches.get_strs(name)
}
