//! What is refused with which status and line.
ghost use Rattle.run_lines.specs.Lines.{no_memory_line, device_line, damage_line};
ghost use Rattle.run_lines.specs.Refusals.{Refuses, host_status, host_line, board_status, board_line, unit_status, unit_line, volume_status, volume_line};

use crate::lines::{
    Line, damage_line, device_line, entry_line, line_of, lost_line, strange_line, unformatted_line,
};
use nvram_map::BoardFault;
use presto_recover::OpenFault as UnitFault;
use rig::HostFault;
use v7_damage::{Damage, RepairFault};

/// The status of a run that was refused, and the line that says why.
#[derive(Drop)]
pub struct Refusal {
    pub status: u8,
    pub line: Line,
}

impl Refusal {
    fn new(status: u8, line: Line) -> Refusal
        ensures { Refuses status line.bytes result }
    {
        Refusal { status, line }
    }
}

/// There was no memory: 75.
pub fn no_memory() -> Refusal
    ensures { Refuses 75 no_memory_line result }
{
    Refusal::new(75, line_of("no memory"))
}

/// A device of the volume of this number failed: 74.
pub fn device_failed(volume: u32) -> Refusal
    ensures { Refuses 74 (device_line volume) result }
{
    Refusal::new(74, device_line(volume))
}

/// The volume of this number can't be mended: 68. A super-block that is missing is damaged in its sizes.
pub fn damaged(volume: u32, sector: u32, kind: Damage) -> Refusal
    ensures { Refuses 68 (damage_line volume sector kind) result }
{
    Refusal::new(68, damage_line(volume, sector, kind))
}

/// The host gave nothing: 66, or 75 for want of memory. The line says what it failed to give.
pub fn host_refusal(fault: HostFault, missing: Line) -> Refusal
    ensures { Refuses (host_status fault) (host_line missing.bytes fault) result }
{
    match fault {
        HostFault::Failed => Refusal::new(66, missing),
        HostFault::NoMemory => no_memory(),
    }
}

// The board isn't one of the volume of this number.
fn board_refusal(number: u32, fault: BoardFault) -> Refusal
    ensures { Refuses (board_status fault) (board_line number fault) result }
{
    match fault {
        BoardFault::Lost => Refusal::new(69, lost_line(number)),
        BoardFault::NotFormatted { word: _ } => Refusal::new(70, unformatted_line(number)),
        BoardFault::WrongVolume { board, volume } => {
            Refusal::new(67, strange_line(&board, &volume))
        }
        BoardFault::BadEntry { index, word: _ } => Refusal::new(68, entry_line(number, index)),
        BoardFault::Failed => device_failed(number),
        BoardFault::NoMemory => no_memory(),
    }
}

/// The disk and the board of the volume of this number weren't opened: 67 to 70 by the board, 68 where there is no super-block, 74 or 75.
pub fn unit_refusal(number: u32, fault: UnitFault) -> Refusal
    ensures { Refuses (unit_status fault) (unit_line number fault) result }
{
    match fault {
        UnitFault::Board(fault) => board_refusal(number, fault),
        UnitFault::NoSuper { sectors: _ } => damaged(number, 1, Damage::Sizes),
        UnitFault::Failed => device_failed(number),
        UnitFault::NoMemory => no_memory(),
    }
}

/// The volume of this number wasn't inspected or mended: 68 where it can't be, 74 or 75.
pub fn volume_refusal(number: u32, fault: RepairFault) -> Refusal
    ensures { Refuses (volume_status fault) (volume_line number fault) result }
{
    match fault {
        RepairFault::Damaged { sector, kind } => damaged(number, sector, kind),
        RepairFault::Failed => device_failed(number),
        RepairFault::NoMemory => no_memory(),
    }
}
