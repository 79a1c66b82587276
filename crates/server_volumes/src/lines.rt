//! The lines that are said of a volume, without memory.
ghost use Rattle.std.specs.Prelude.{◌≡◌, ◌≤◌, length};
ghost use Rattle.server_volumes.specs.Lines.{state_word, opened_line, loss_line, stopped_line};

use itoa::Buffer;
use run_lines::{Line, push_name};
use stable::State;

fn state_word(state: State) -> &'static str
    ensures word { result.now ≡ state_word state }
    ensures short { length result.now ≤ 5 }
{
    match state {
        State::Up => "up",
        State::Down => "down",
        State::Error(_) => "error",
    }
}

/// The volume of this number was opened and started: its name, its state, and how many entries of its board were recovered.
pub fn opened_line(volume: u32, name: &[u8; 6], state: State, recovered: u32) -> Line
    ensures { result.bytes ≡ opened_line volume name.now state recovered }
{
    let mut number = Buffer::new();
    let mut line = Line::new();
    line.push_str("volume ");
    line.push_str(number.format(volume));
    line.push_str(" ");
    push_name(&mut line, name);
    line.push_str(" ");
    line.push_str(state_word(state));
    line.push_str(" recovered ");
    line.push_str(number.format(recovered));
    line
}

/// The loss of the board of the volume of this number was accepted.
pub fn loss_line(volume: u32) -> Line
    ensures { result.bytes ≡ loss_line volume }
{
    let mut number = Buffer::new();
    let mut line = Line::new();
    line.push_str("volume ");
    line.push_str(number.format(volume));
    line.push_str(": lost board accepted");
    line
}

/// The volume of this number was stopped: its state, and how many entries of its board are dirty.
pub fn stopped_line(volume: u32, state: State, dirty: u32) -> Line
    ensures { result.bytes ≡ stopped_line volume state dirty }
{
    let mut number = Buffer::new();
    let mut line = Line::new();
    line.push_str("volume ");
    line.push_str(number.format(volume));
    line.push_str(" ");
    line.push_str(state_word(state));
    line.push_str(" dirty ");
    line.push_str(number.format(dirty));
    line
}
