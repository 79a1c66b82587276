//! The volumes that are named.
ghost use Rattle.std.specs.Prelude.{◌≡◌, ◌≤◌, ◌++◌, IfOk, IfSome, OnOk, flat_map, length, map};
ghost use Rattle.std.specs.Option.{option_and_then, option_map};
ghost use Rattle.std.specs.List.{All, list_any};
ghost use Rattle.std.specs.Str.{bytes_eq};
ghost use Rattle.run_lines.specs.Naming.{named_of};
ghost use Rattle.server_words.specs.Words.{are_apart, are_distinct, if_apart, named_by_each, parts_of};
ghost use Rattle.server_words.specs.Reading.{AreWithin};

use run_lines::{Named, read_volume};
use std::alloc::{AllocError, Global};

// What each word names, if each names a volume.
fn named_by_each<'a>(alloc: Global, words: &[&'a str]) -> Result<Option<Vec<Named<'a>>>, AllocError>
    ensures named { IfOk result (λ read. option_map (λ volumes. map named_of volumes.items) read ≡ named_by_each (map (λ word. word.now) words.now)) }
    ensures short { IfOk result (λ read. IfSome read (λ volumes. All (λ volume. length volume.word.now ≤ 401) volumes.items)) }
{
    let mut volumes = Vec::new(alloc);
    for word in words {
        let Some(volume) = read_volume(word) else {
            return Ok(None);
        };
        volumes.push(volume)?;
    }
    Ok(Some(volumes))
}

// Adds the disk and the board of a volume.
fn add_parts<'a>(parts: &mut Vec<&'a str>, volume: &Named<'a>) -> Result<(), AllocError>
    ensures { OnOk result (map (λ part. part.now) parts.new.items ≡ map (λ part. part.now) parts.old.items ++ parts_of (named_of volume.now)) }
{
    parts.push(volume.disk)?;
    if let Some(board) = volume.board {
        parts.push(board)?;
    }
    Ok(())
}

// All disks and boards.
fn parts_of<'a>(alloc: Global, volumes: &[Named<'a>]) -> Result<Vec<&'a str>, AllocError>
    ensures { IfOk result (λ parts. map (λ part. part.now) parts.items ≡ flat_map parts_of (map named_of volumes.now)) }
{
    let mut parts = Vec::new(alloc);
    for volume in volumes {
        add_parts(&mut parts, volume)?;
    }
    Ok(parts)
}

// Whether this is one of the parts.
fn is_among(part: &str, parts: &[&str]) -> bool
    ensures { result ≡ list_any (bytes_eq part.now) (map (λ other. other.now) parts.now) }
{
    for other in parts {
        if part == *other {
            return true;
        }
    }
    false
}

// Whether no two are equal.
fn are_distinct(parts: &[&str]) -> bool
    ensures { result ≡ are_distinct (map (λ part. part.now) parts.now) }
{
    match parts {
        [] => true,
        [part, rest @ ..] => !is_among(part, rest) && are_distinct(rest),
    }
}

// Whether they are one to four, and no two of all their disks and boards are equal.
fn are_apart(alloc: Global, volumes: &[Named<'_>]) -> Result<bool, AllocError>
    ensures { IfOk result (λ apart. apart ≡ are_apart (map named_of volumes.now)) }
{
    if volumes.is_empty() || volumes.len() > 4 {
        return Ok(false);
    }
    let parts = parts_of(alloc, volumes)?;
    Ok(are_distinct(&parts))
}

// The volumes that the words name, if they are apart.
pub(crate) fn read_volumes<'a>(
    alloc: Global,
    words: &[&'a str],
) -> Result<Option<Vec<Named<'a>>>, AllocError>
    ensures named { IfOk result (λ read. option_map (λ volumes. map named_of volumes.items) read ≡ option_and_then if_apart (named_by_each (map (λ word. word.now) words.now))) }
    ensures within { IfOk result (λ read. IfSome read (λ volumes. AreWithin volumes.items)) }
{
    let Some(volumes) = named_by_each(alloc, words)? else {
        return Ok(None);
    };
    if are_apart(alloc, &volumes)? {
        Ok(Some(volumes))
    } else {
        Ok(None)
    }
}
