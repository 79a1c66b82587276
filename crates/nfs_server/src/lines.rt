//! The lines that are said of a whole run, without memory.
ghost use Rattle.std.specs.Prelude.{◌≡◌, ◌-◌};
ghost use Rattle.nfs_server.specs.Lines.{no_port_line, numbers_line};

use itoa::Buffer;
use nfs_worker::Numbers;
use run_lines::Line;

/// How many datagrams were received, answered and dropped.
pub fn numbers_line(numbers: Numbers) -> Line
    ensures { result.bytes ≡ numbers_line numbers.received numbers.answered (numbers.received - numbers.answered) }
{
    let mut number = Buffer::new();
    let mut line = Line::new();
    line.push_str("received ");
    line.push_str(number.format(numbers.received));
    line.push_str(" answered ");
    line.push_str(number.format(numbers.answered));
    line.push_str(" dropped ");
    line.push_str(number.format(numbers.dropped));
    line
}

/// The host gave no post at this port.
pub fn no_port_line(port: u16) -> Line
    ensures { result.bytes ≡ no_port_line port }
{
    let mut number = Buffer::new();
    let mut line = Line::new();
    line.push_str("cannot open port ");
    line.push_str(number.format(port));
    line
}
