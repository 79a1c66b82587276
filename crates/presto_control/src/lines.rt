//! The lines and statuses of a run, without memory.
ghost use Rattle.std.specs.Prelude.{◌≡◌, ◌≤◌, length};
ghost use Rattle.presto_control.specs.Lines.{state_word, battery_word, left_line, status_line, answer_line, answer_status};

use crate::answers::Answer;
use itoa::Buffer;
use run_lines::{Line, line_of};
use stable::{Battery, Cause, State};

fn state_word(state: State) -> &'static str
    ensures word { result.now ≡ state_word state }
    ensures short { length result.now ≤ 13 }
{
    match state {
        State::Up => "up",
        State::Down => "down",
        State::Error(Cause::Disk) => "error disk",
        State::Error(Cause::Board) => "error board",
        State::Error(Cause::Battery) => "error battery",
    }
}

fn battery_word(battery: Battery) -> &'static str
    ensures word { result.now ≡ battery_word battery }
    ensures short { length result.now ≤ 4 }
{
    match battery {
        Battery::Good => "good",
        Battery::Low => "low",
    }
}

fn left_line(n: u32) -> Line
    ensures { result.bytes ≡ left_line n }
{
    let mut number = Buffer::new();
    let mut line = Line::new();
    line.push_str("left ");
    line.push_str(number.format(n));
    line
}

fn status_line(state: State, dirty: u32, battery: Battery, puts: u64) -> Line
    ensures { result.bytes ≡ status_line state dirty battery puts }
{
    let mut number = Buffer::new();
    let mut line = Line::new();
    line.push_str("state ");
    line.push_str(state_word(state));
    line.push_str(" dirty ");
    line.push_str(number.format(dirty));
    line.push_str(" battery ");
    line.push_str(battery_word(battery));
    line.push_str(" puts ");
    line.push_str(number.format(puts));
    line
}

/// What the server answers, as a line.
pub fn answer_line(answer: Answer) -> Line
    ensures { result.bytes ≡ answer_line answer }
{
    match answer {
        Answer::Done => line_of("done"),
        Answer::Left(n) => left_line(n),
        Answer::BatteryLow => line_of("battery low"),
        Answer::NotDown => line_of("not down"),
        Answer::NoVolume => line_of("no volume"),
        Answer::Refused => line_of("refused"),
        Answer::Status {
            state,
            dirty,
            battery,
            puts,
        } => status_line(state, dirty, battery, puts),
    }
}

/// The status of a run that was answered so: 0 where it was done or its status was told, else 1.
pub fn answer_status(answer: Answer) -> u8
    ensures { result ≡ answer_status answer }
{
    match answer {
        Answer::Done | Answer::Status { .. } => 0,
        _ => 1,
    }
}
