//! The lines that a program says, without memory.
ghost use Rattle.std.specs.Prelude.{◌≡◌, ◌+◌, ◌≤◌, ◌<◌, ◌++◌, length, map};
ghost use Rattle.run_lines.specs.Lines.{printed, kind_word, board_of, damage_line, device_line, no_volume_line, strange_line, entry_line, lost_line, unformatted_line};

use arrayvec::ArrayString;
use itoa::Buffer;
use v7_damage::Damage;

/// A line of at most 512 bytes.
pub type Line = ArrayString<512>;

// A byte of a volume's name, `?` where it can't be printed.
fn printable(byte: u8) -> char
    ensures printed { result ≡ printed byte }
    ensures ascii { result < 128 }
{
    if 33 <= byte && byte <= 126 {
        char::from(byte)
    } else {
        '?'
    }
}

/// Adds the name of a volume, with `?` for each byte outside 33 to 126.
pub fn push_name(line: &mut Line, name: &[u8; 6])
    requires { length line.old.bytes ≤ 100 }
    ensures { line.new.bytes ≡ line.old.bytes ++ map printed name.now }
{
    for byte in name {
        line.push(printable(*byte));
    }
}

/// The volume that this word names could not be opened.
pub fn no_volume_line(word: &str) -> Line
    requires { length word.now ≤ 401 }
    ensures { result.bytes ≡ no_volume_line word.now }
{
    let mut line = Line::new();
    line.push_str("cannot open ");
    line.push_str(word);
    line
}

/// The board has this name, and the volume that one.
pub fn strange_line(board: &[u8; 6], volume: &[u8; 6]) -> Line
    ensures { result.bytes ≡ strange_line board.now volume.now }
{
    let mut line = Line::new();
    line.push_str("board ");
    push_name(&mut line, board);
    line.push_str(" is not of volume ");
    push_name(&mut line, volume);
    line
}

// What is said of the board of the volume of this number begins so.
fn board_of(volume: u32) -> Line
    ensures bytes { result.bytes ≡ board_of volume }
    ensures short { length result.bytes ≤ 30 }
{
    let mut number = Buffer::new();
    let mut line = Line::new();
    line.push_str("board of volume ");
    line.push_str(number.format(volume));
    line
}

/// The board of the volume of this number lost its memory.
pub fn lost_line(volume: u32) -> Line
    ensures { result.bytes ≡ lost_line volume }
{
    let mut line = board_of(volume);
    line.push_str(" lost its memory");
    line
}

/// The board of the volume of this number isn't formatted.
pub fn unformatted_line(volume: u32) -> Line
    ensures { result.bytes ≡ unformatted_line volume }
{
    let mut line = board_of(volume);
    line.push_str(" not formatted");
    line
}

/// This entry of the board of the volume of this number is damaged.
pub fn entry_line(volume: u32, index: u32) -> Line
    ensures { result.bytes ≡ entry_line volume index }
{
    let mut number = Buffer::new();
    let mut line = board_of(volume);
    line.push_str(": entry ");
    line.push_str(number.format(index));
    line.push_str(" bad");
    line
}

/// A device of the volume of this number failed.
pub fn device_line(volume: u32) -> Line
    ensures { result.bytes ≡ device_line volume }
{
    let mut number = Buffer::new();
    let mut line = Line::new();
    line.push_str("device failed on volume ");
    line.push_str(number.format(volume));
    line
}

fn kind_word(kind: Damage) -> &'static str
    ensures word { result.now ≡ kind_word kind }
    ensures short { length result.now ≤ 7 }
{
    match kind {
        Damage::Sizes => "sizes",
        Damage::Kind => "kind",
        Damage::Length => "length",
        Damage::Address => "address",
        Damage::Shared => "shared",
        Damage::Dots => "dots",
        Damage::Slot => "slot",
    }
}

/// The volume of this number can't be mended: the sector of its first damage, and the kind.
pub fn damage_line(volume: u32, sector: u32, kind: Damage) -> Line
    ensures { result.bytes ≡ damage_line volume sector kind }
{
    let mut number = Buffer::new();
    let mut line = Line::new();
    line.push_str("volume ");
    line.push_str(number.format(volume));
    line.push_str(" damaged: sector ");
    line.push_str(number.format(sector));
    line.push_str(" ");
    line.push_str(kind_word(kind));
    line
}

/// A fixed line of at most 100 bytes.
pub fn line_of(text: &str) -> Line
    requires { length text.now ≤ 100 }
    ensures { result.bytes ≡ text.now }
{
    let mut line = Line::new();
    line.push_str(text);
    line
}
