//! The lines that the tool says, without memory.
ghost use Rattle.std.specs.Prelude.{◌≡◌, ◌≤◌, length};
ghost use Rattle.volume_tool.specs.Lines.{clean_word, made_line, recovered_line, seen_line, small_line};

use itoa::Buffer;
use run_lines::Line;
use v7_inspect::Seen;

/// The volume would need so many sectors, and has so many.
pub fn small_line(need: u32, have: u32) -> Line
    ensures { result.bytes ≡ small_line need have }
{
    let mut number = Buffer::new();
    let mut line = Line::new();
    line.push_str("too small: need ");
    line.push_str(number.format(need));
    line.push_str(" have ");
    line.push_str(number.format(have));
    line
}

/// A volume was made: its sectors, its inodes, and how many of its blocks are free.
pub fn made_line(sectors: u32, inodes: u32, free: u32) -> Line
    ensures { result.bytes ≡ made_line sectors inodes free }
{
    let mut number = Buffer::new();
    let mut line = Line::new();
    line.push_str("made ");
    line.push_str(number.format(sectors));
    line.push_str(" sectors ");
    line.push_str(number.format(inodes));
    line.push_str(" inodes ");
    line.push_str(number.format(free));
    line.push_str(" free");
    line
}

fn clean_word(clean: bool) -> &'static str
    ensures word { result.now ≡ clean_word clean }
    ensures short { length result.now ≤ 15 }
{
    if clean {
        "clean files "
    } else {
        "mendable files "
    }
}

/// A volume that can be mended: whether there is nothing to mend and it was stopped cleanly, its numbers of files, and its blocks.
pub fn seen_line(seen: &Seen) -> Line
    ensures { result.bytes ≡ seen_line seen.now }
{
    let mut number = Buffer::new();
    let mut line = Line::new();
    line.push_str(clean_word(seen.strong && seen.clean));
    line.push_str(number.format(seen.files));
    line.push_str(" directories ");
    line.push_str(number.format(seen.directories));
    line.push_str(" links ");
    line.push_str(number.format(seen.links));
    line.push_str(" used ");
    line.push_str(number.format(seen.used));
    line.push_str(" free ");
    line.push_str(number.format(seen.free));
    line
}

/// A volume was recovered: how many entries of its board, and how many sectors were put to mend it.
pub fn recovered_line(recovered: u32, repaired: u32) -> Line
    ensures { result.bytes ≡ recovered_line recovered repaired }
{
    let mut number = Buffer::new();
    let mut line = Line::new();
    line.push_str("recovered ");
    line.push_str(number.format(recovered));
    line.push_str(" repaired ");
    line.push_str(number.format(repaired));
    line
}
