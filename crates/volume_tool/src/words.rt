//! The words of the command line.
ghost use Rattle.std.specs.Prelude.{◌≡◌, ◌≤◌, IfSome, map, string_bytes};
ghost use Rattle.std.specs.Char.{is_ascii_alphanumeric};
ghost use Rattle.std.specs.List.{list_all};
ghost use Rattle.std.specs.Option.{option_map};
ghost use Rattle.volume_tool.specs.Words.{name_of, fits_board, plan_of, make_of, check_of, loss_of, recover_of, asked_by};
ghost use Rattle.volume_tool.specs.Asking.{plan_read, asked_of, IsRead};

use run_lines::{Named, read_number, read_volume};

/// A volume that is to be made.
#[derive(Clone, Copy)]
pub struct Plan {
    /// How many sectors it has.
    pub size: u32,
    /// How many inodes it has at least, 1 or more.
    pub inodes: u32,
    /// How many buffers its board has: 0 without one, else 2 to 2,048.
    pub buffers: u32,
    /// Its name, six letters or digits.
    pub name: [u8; 6],
    /// The second at which it is made.
    pub second: u32,
}

/// What the words ask for.
#[derive(Clone, Copy)]
pub enum Asked<'a> {
    /// A volume is to be made.
    Make {
        volume: Named<'a>,
        plan: Plan,
    },
    /// One is to be inspected.
    Check {
        volume: Named<'a>,
    },
    /// One is to be mended and stopped cleanly, perhaps with the loss of its board accepted.
    Recover {
        volume: Named<'a>,
        accept_loss: bool,
    },
}

// Whether these are letters and digits.
fn is_plain(text: &[u8]) -> bool
    ensures { result ≡ list_all is_ascii_alphanumeric text.now }
{
    for byte in text {
        if !byte.is_ascii_alphanumeric() {
            return false;
        }
    }
    true
}

// A name of six letters or digits.
fn read_name(text: &[u8]) -> Option<[u8; 6]>
    ensures { result ≡ name_of text.now }
{
    if text.len() != 6 || !is_plain(text) {
        return None;
    }
    let mut name = [0; 6];
    name.copy_from_slice(text);
    Some(name)
}

// The numbers and the name of a volume that is to be made.
fn read_plan(words: &[String]) -> Option<Plan>
    ensures plan { option_map plan_read result ≡ plan_of (map string_bytes words.now) }
    ensures some { IfSome result (λ plan. 1 ≤ plan.inodes) }
{
    let [size, inodes, buffers, name, now] = words else {
        return None;
    };
    let plan = Plan {
        size: read_number(size.as_bytes(), u32::MAX)?,
        inodes: read_number(inodes.as_bytes(), u32::MAX)?,
        buffers: read_number(buffers.as_bytes(), u32::MAX)?,
        name: read_name(name.as_bytes())?,
        second: read_number(now.as_bytes(), u32::MAX)?,
    };
    if plan.inodes > 0 { Some(plan) } else { None }
}

// Whether a volume has as many buffers as it may: 2 to 2,048 on a board, and none without one.
fn fits_board(volume: &Named<'_>, buffers: u32) -> bool
    ensures { result ≡ fits_board (option_map (λ board. board.now) volume.now.board) buffers }
{
    match volume.board {
        None => buffers == 0,
        Some(_) => 2 <= buffers && buffers <= 2048,
    }
}

// The words after `mkfs`.
fn read_make(words: &[String]) -> Option<Asked<'_>>
    ensures asked { option_map asked_of result ≡ make_of (map string_bytes words.now) }
    ensures good { IfSome result IsRead }
{
    let [word, rest @ ..] = words else {
        return None;
    };
    let volume = read_volume(word.as_str())?;
    let plan = read_plan(rest)?;
    if fits_board(&volume, plan.buffers) {
        Some(Asked::Make { volume, plan })
    } else {
        None
    }
}

// The words after `check`.
fn read_check(words: &[String]) -> Option<Asked<'_>>
    ensures asked { option_map asked_of result ≡ check_of (map string_bytes words.now) }
    ensures good { IfSome result IsRead }
{
    let [word] = words else {
        return None;
    };
    let volume = read_volume(word.as_str())?;
    Some(Asked::Check { volume })
}

// Whether the loss of a board is accepted.
fn read_loss(words: &[String]) -> Option<bool>
    ensures { result ≡ loss_of (map string_bytes words.now) }
{
    let [word, rest @ ..] = words else {
        return Some(false);
    };
    if rest.is_empty() && word.as_str() == "accept-loss" {
        Some(true)
    } else {
        None
    }
}

// The words after `recover`.
fn read_recover(words: &[String]) -> Option<Asked<'_>>
    ensures asked { option_map asked_of result ≡ recover_of (map string_bytes words.now) }
    ensures good { IfSome result IsRead }
{
    let [word, rest @ ..] = words else {
        return None;
    };
    let volume = read_volume(word.as_str())?;
    let accept_loss = read_loss(rest)?;
    Some(Asked::Recover {
        volume,
        accept_loss,
    })
}

/// Reads the words: `mkfs VOLUME SIZE INODES BUFFERS NAME NOW`, `check VOLUME`, `recover VOLUME` or `recover VOLUME accept-loss`. A volume is a
/// disk, or a disk and a board, cut at the last colon. A number has one to ten decimal digits and 32 bits.
pub fn read_words(words: &[String]) -> Option<Asked<'_>>
    ensures asked { option_map asked_of result ≡ asked_by (map string_bytes words.now) }
    ensures good { IfSome result IsRead }
{
    let [verb, rest @ ..] = words else {
        return None;
    };
    match verb.as_str() {
        "mkfs" => read_make(rest),
        "check" => read_check(rest),
        "recover" => read_recover(rest),
        _ => None,
    }
}
