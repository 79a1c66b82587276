ghost use Rattle.std.specs.Prelude.{◌≡◌, ◌+◌, ◌<◌, ◌↔◌, ℕ, true, None, IfOk, IsErr};
ghost use Rattle.stable.specs.declared.battery.Battery.{Battery};
ghost use Rattle.rig.specs.Devices.{IsBoard};
ghost use Rattle.rig_file.specs.Boards.{words_of, buffers_of, kept_of};
ghost use Rattle.rig_file.specs.Rigs.{IsNew};
ghost use Rattle.rig_file.specs.Silent.{nothing, sized};

use crate::board_file::BoardFile;
use crate::count::{count, counted};
use crate::device::{make_device, open_device, put};
use crate::layout::{disk_length, whole_sectors};
use rig::{Battery, Failed, Rig};
use std::fs::File;
use std::io;
use std::io::ErrorKind;
use std::os::unix::fs::FileExt;
use std::rt::Files;

/// Disk and board of one volume as files: the disk of whole sectors, the board as docs/FORMATS.md has it, "Board file". Each
/// write and each store is synced before it answers. Their contents are not told.
#[derive(Drop)]
pub struct FileRig<T> {
    system: T,
    disk: File,
    sectors: u32,
    board: Option<BoardFile>,
    faults: u64,
    disk_writes: u64,
    readings: u64,
    last: Option<Battery>,
    ghost is_board: { IsBoard (sized sectors (words_of board) (buffers_of board)) (kept_of board) },
}

// Opens the board of that name, where one is named.
fn open_board<T: Files<File = File> + AllocGlobal>(
    system: &T,
    path: Option<&str>,
) -> io::Result<Option<BoardFile>>
    ensures { IfOk result (λ board. buffers_of board ≡ 0 ↔ path.entry ≡ None) }
{
    match path {
        Some(path) => Ok(Some(BoardFile::open(system, path)?)),
        None => Ok(None),
    }
}

// Makes a board of so many buffers; none where they are 0.
fn make_board<T: Files<File = File> + AllocGlobal>(
    system: &T,
    path: Option<&str>,
    buffers: u32,
) -> io::Result<Option<BoardFile>>
    ensures buffers { IfOk result (λ board. buffers_of board ≡ buffers) }
    ensures kept { IfOk result (λ board. kept_of board ≡ true) }
    ensures named { path.entry ≡ None → 0 < buffers → IsErr result }
{
    if buffers == 0 {
        return Ok(None);
    }
    let Some(path) = path else {
        return Err(io::Error::from(ErrorKind::InvalidInput));
    };
    Ok(Some(BoardFile::make(system, path, buffers)?))
}

impl<T: Files<File = File> + AllocGlobal + Drop> FileRig<T> {
    /// Opens the disk and, where one is named, the board. It fails where a file isn't there, where the disk isn't whole sectors,
    /// fewer than 2 to the 32, and where the board's length is that of no board.
    pub fn open(system: T, disk: &str, board: Option<&str>) -> io::Result<FileRig<T>>
        ensures board { IfOk result (λ rig. (⟦<FileRig<T> as Rig>⟧.sizes rig).buffers ≡ 0 ↔ board.entry ≡ None) }
        ensures new { IfOk result (IsNew ⟦<FileRig<T> as Rig>⟧) }
    {
        let memory = open_board(&system, board)?;
        let file = open_device(&system, disk)?;
        let Some(sectors) = whole_sectors(file.metadata()?.len()) else {
            return Err(io::Error::from(ErrorKind::InvalidData));
        };
        Ok(FileRig::over(system, file, sectors, memory))
    }

    /// Makes a disk of so many sectors and a board of so many buffers, all zeros and the memory kept, in place of any files there.
    /// Where there are no buffers, no board is made. It fails where that isn't the number of buffers of a board, and where there
    /// are buffers but no board is named. After an error any of the two files may be made, or begun.
    pub fn make(
        system: T,
        disk: &str,
        sectors: u32,
        board: Option<&str>,
        buffers: u32,
    ) -> io::Result<FileRig<T>>
        ensures sectors { IfOk result (λ rig. (⟦<FileRig<T> as Rig>⟧.sizes rig).sectors ≡ sectors) }
        ensures buffers { IfOk result (λ rig. (⟦<FileRig<T> as Rig>⟧.sizes rig).buffers ≡ buffers) }
        ensures kept { IfOk result (λ rig. ⟦<FileRig<T> as Rig>⟧.is_kept rig ≡ true) }
        ensures new { IfOk result (IsNew ⟦<FileRig<T> as Rig>⟧) }
        ensures named { board.entry ≡ None → 0 < buffers → IsErr result }
    {
        let memory = make_board(&system, board, buffers)?;
        let file = make_device(&system, disk, disk_length(sectors))?;
        Ok(FileRig::over(system, file, sectors, memory))
    }
}

impl<T: Files<File = File> + Drop> FileRig<T> {
    // Nothing is counted yet.
    fn over(system: T, disk: File, sectors: u32, board: Option<BoardFile>) -> FileRig<T>
        ensures sectors { result.sectors ≡ sectors }
        ensures board { result.board ≡ board }
        ensures new { IsNew ⟦<FileRig<T> as Rig>⟧ result }
    {
        FileRig {
            system,
            disk,
            sectors,
            board,
            faults: 0,
            disk_writes: 0,
            readings: 0,
            last: None,
        }
    }

    // What the battery says; Low without a board.
    fn battery_now(&self) -> Battery
        ensures { words_of self.now.board ≡ 0 → result ≡ Battery.Low }
    {
        match &self.board {
            Some(board) => board.battery(&self.system),
            None => Battery::Low,
        }
    }
}

impl<T: Files<File = File> + Drop> Rig for FileRig<T> {
    ghost tells = { ⊥ };

    ghost contents = { λ _. nothing };

    ghost moment = { λ _. 0 };

    ghost left_since = { λ _ _ _. ⊥ };

    ghost sizes = { λ rig. sized rig.sectors (words_of rig.board) (buffers_of rig.board) };

    ghost is_kept = { λ rig. kept_of rig.board };

    ghost faults = { λ rig. rig.faults };

    ghost disk_writes = { λ rig. rig.disk_writes };

    ghost readings = { λ rig. record { count = rig.readings; last = rig.last } };

    ghost clocked = { record {
      now = λ r t tells le. absurd tells;
      only = λ r d left. absurd left;
      wider = λ r t u d le left. left;
      told = λ r t d left. left;
    } };

    ghost shape = { λ r t d left. absurd left };

    ghost kept_told = { λ r tells. absurd tells };

    ghost board = { λ r. r.is_board };

    fn sectors(&self) -> u32 {
        self.sectors
    }

    fn words(&self) -> u32 {
        match &self.board {
            Some(board) => board.buffers() + 1,
            None => 0,
        }
    }

    fn buffers(&self) -> u32 {
        match &self.board {
            Some(board) => board.buffers(),
            None => 0,
        }
    }

    fn kept(&self) -> bool {
        match &self.board {
            Some(board) => board.kept(),
            None => true,
        }
    }

    fn mark_kept(&mut self) -> Result<(), Failed> {
        let Some(board) = &mut self.board else {
            return Ok(());
        };
        let done = board.mark_kept();
        counted(done, &mut self.faults)
    }

    fn battery(&mut self) -> Battery {
        count(&mut self.readings);
        let battery = self.battery_now();
        self.last = Some(battery);
        battery
    }

    fn read(&mut self, sector: u32, into: &mut [u8; 512]) -> Result<(), Failed> {
        let done = self.disk.read_exact_at(into, u64::from(sector) * 512);
        counted(done, &mut self.faults)
    }

    fn write(&mut self, sector: u32, bytes: &[u8; 512]) -> Result<(), Failed> {
        let done = put(&self.disk, bytes, u64::from(sector) * 512);
        counted(done, &mut self.faults)?;
        count(&mut self.disk_writes);
        Ok(())
    }

    fn load_word(&mut self, index: u32) -> Result<u64, Failed> {
        let Some(board) = &self.board else {
            unreachable!()
        };
        counted(board.load_word(index), &mut self.faults)
    }

    fn store_word(&mut self, index: u32, word: u64) -> Result<(), Failed> {
        let Some(board) = &self.board else {
            unreachable!()
        };
        counted(board.store_word(index, word), &mut self.faults)
    }

    fn load_buffer(&mut self, index: u32, into: &mut [u8; 512]) -> Result<(), Failed> {
        let Some(board) = &self.board else {
            unreachable!()
        };
        counted(board.load_buffer(index, into), &mut self.faults)
    }

    fn store_buffer(&mut self, index: u32, bytes: &[u8; 512]) -> Result<(), Failed> {
        let Some(board) = &self.board else {
            unreachable!()
        };
        counted(board.store_buffer(index, bytes), &mut self.faults)
    }
}
