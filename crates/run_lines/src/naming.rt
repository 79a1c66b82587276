//! The word that names a disk, and a board in front of it.
ghost use Rattle.std.specs.Prelude.{◌≡◌, ◌≤◌, ◌+◌, length, IfSome, None, Some};
ghost use Rattle.std.specs.Option.{option_map};
ghost use Rattle.run_lines.specs.Naming.{is_part, named_parts, named_by, named_of};

/// A disk, and a board in front of it if there is one.
#[derive(Clone, Copy)]
pub struct Named<'a> {
    /// The word that names them.
    pub word: &'a str,
    /// The file of the disk.
    pub disk: &'a str,
    /// The file of the board.
    pub board: Option<&'a str>,
}

fn is_part(name: &str) -> bool
    ensures { result ≡ is_part name.now }
{
    name.len() >= 1 && name.len() <= 200
}

// A word that names a disk alone.
fn read_disk(word: &str) -> Option<Named<'_>>
    ensures named { option_map named_of result ≡ named_parts word.now None }
    ensures short { IfSome result (λ named. length named.word.now ≤ 401) }
{
    if is_part(word) {
        Some(Named {
            word,
            disk: word,
            board: None,
        })
    } else {
        None
    }
}

// A word that names a disk and a board.
fn read_both<'a>(word: &'a str, disk: &'a str, board: &'a str) -> Option<Named<'a>>
    requires { length word.now ≤ length disk.now + length board.now + 1 }
    ensures named { option_map named_of result ≡ named_parts word.now (Some (disk.now, board.now)) }
    ensures short { IfSome result (λ named. length named.word.now ≤ 401) }
{
    if is_part(disk) && is_part(board) && disk != board {
        Some(Named {
            word,
            disk,
            board: Some(board),
        })
    } else {
        None
    }
}

/// The disk and the board that a word names: a disk of 1 to 200 bytes, or a disk and another board, cut at the last colon.
pub fn read_volume(word: &str) -> Option<Named<'_>>
    ensures named { option_map named_of result ≡ named_by word.now }
    ensures short { IfSome result (λ named. length named.word.now ≤ 401) }
{
    match word.rfind(':') {
        None => read_disk(word),
        Some(at) => read_both(word, &word[..at], &word[at + 1..]),
    }
}
