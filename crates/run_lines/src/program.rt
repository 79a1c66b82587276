//! The words that a program is started with, and what is said where they can't be read.
ghost use Rattle.std.specs.Prelude.{◌≡◌, ◌∷◌, []};
ghost use Rattle.run_lines.specs.Told.{Said};
ghost use Rattle.run_lines.specs.Unread.{unread_status, unread_line};

use crate::telling::offer;
use rig::Say;
use std::io::ErrorKind;
use std::rt::Env;
use std::{env, io};

/// Why the words can't be read.
#[derive(Clone, Copy, Debug, PartialEq, Eq)]
pub enum Unread {
    /// There was no memory for them.
    NoMemory,
    /// One of them isn't UTF-8.
    NotText,
}

fn why_unread(error: &io::Error) -> Unread {
    match error.kind() {
        ErrorKind::OutOfMemory => Unread::NoMemory,
        _ => Unread::NotText,
    }
}

/// The words after the program's name.
pub fn read_command_line<T: Env + AllocGlobal>(system: &T) -> Result<Vec<String>, Unread> {
    let mut words = Vec::new(system.alloc());
    let all = env::args(system).map_err(|error| why_unread(&error))?;
    for word in all.skip(1) {
        words.push(word).map_err(|_| Unread::NoMemory)?;
    }
    Ok(words)
}

/// Says why the words can't be read, and answers the status: 75 for want of memory, and else 64 with the usage line. A failure to say it is passed over.
pub fn refuse_words<O: Say>(out: &mut O, why: Unread, usage: &str) -> u8
    ensures status { result ≡ unread_status why }
    ensures said { Said O.Say out.old out.new (unread_line usage.now why ∷ []) }
    ensures only { O.Say.OnlySays out.old out.new }
{
    match why {
        Unread::NoMemory => {
            offer(out, "no memory");
            75
        }
        Unread::NotText => {
            offer(out, usage);
            64
        }
    }
}
