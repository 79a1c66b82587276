//! The words of the command line, read.
ghost use Rattle.std.specs.Prelude.{◌≡◌, IfOk, IfSome, map, string_bytes};
ghost use Rattle.std.specs.Option.{option_map};
ghost use Rattle.clap.specs.Words.{found_of, rows_of};
ghost use Rattle.run_lines.specs.Naming.{named_of};
ghost use Rattle.server_words.specs.Words.{asked_by, meaning_of, volumes_in};
ghost use Rattle.server_words.specs.Reading.{AreWithin, IsWithin, words_read};

use crate::command::{VOLUME, parse, texts_of};
use crate::options::{Options, read_options};
use crate::volumes::read_volumes;
use clap::ArgMatches;
use run_lines::Named;
use std::alloc::{AllocError, Global};

/// What the words ask for.
#[derive(Drop)]
pub struct Words<'a> {
    /// The volumes, one to four; no two of all their disks and boards are equal.
    pub volumes: Vec<Named<'a>>,
    /// The options.
    pub options: Options,
}

// The volumes that the matches have.
fn volumes_in<'a>(
    alloc: Global,
    matches: &ArgMatches<'a>,
) -> Result<Option<Vec<Named<'a>>>, AllocError>
    ensures named { IfOk result (λ read. option_map (λ volumes. map named_of volumes.items) read ≡ volumes_in (rows_of (found_of matches.now))) }
    ensures within { IfOk result (λ read. IfSome read (λ volumes. AreWithin volumes.items)) }
{
    match texts_of(matches, VOLUME) {
        Some(words) => read_volumes(alloc, words),
        None => Ok(None),
    }
}

// What the matches mean.
fn meaning_of<'a>(alloc: Global, matches: &ArgMatches<'a>) -> Result<Option<Words<'a>>, AllocError>
    ensures read { IfOk result (λ read. option_map words_read read ≡ meaning_of (rows_of (found_of matches.now))) }
    ensures within { IfOk result (λ read. IfSome read IsWithin) }
{
    let Some(options) = read_options(matches) else {
        return Ok(None);
    };
    match volumes_in(alloc, matches)? {
        Some(volumes) => Ok(Some(Words { volumes, options })),
        None => Ok(None),
    }
}

/// What the words after the program's name ask for (docs/CALLS.md, "Words"); None exactly where they aren't of the grammar: where `clap`
/// doesn't accept them for the command, or a number or a volume fails its check. An error is want of memory, and says nothing of the words.
pub fn read_words<'a>(alloc: Global, words: &'a [String]) -> Result<Option<Words<'a>>, AllocError>
    ensures read { IfOk result (λ read. option_map words_read read ≡ asked_by (map string_bytes words.entry.now)) }
    ensures within { IfOk result (λ read. IfSome read IsWithin) }
{
    let Some(matches) = parse(alloc, words)? else {
        return Ok(None);
    };
    meaning_of(alloc, &matches)
}
