ghost use Rattle.std.specs.Prelude.{◌≡◌, true, false, ◌↔◌, ◌≤◌, ◌<◌, IfOk, OnOk, OnErr, Ok};
ghost use Rattle.stable.specs.declared.battery.Battery.{Battery};

use crate::device::{make_device, open_device, put};
use crate::layout::{
    FEWEST_BUFFERS, MOST_BUFFERS, board_length, buffer_place, buffers_in, bytes_of_word,
    kept_place, word_of_bytes, word_place,
};
use rig::Battery;
use std::alloc::Global;
use std::fs::File;
use std::io::ErrorKind;
use std::os::unix::fs::FileExt;
use std::rt::Files;
use std::{fs, io};

// The byte that says that the memory was kept; any other says that it was lost.
const KEPT: u8 = 1;

/// The memory of a board as a file (docs/FORMATS.md, "Board file"). Each store is synced before it answers.
#[derive(Drop)]
pub struct BoardFile {
    file: File,
    low_sign: String,
    buffers: u32,
    kept: bool,
    ghost fewest: { 2 ≤ buffers },
    ghost most: { buffers ≤ 2048 },
}

// The path of the file whose presence says that the board's battery is low.
fn low_sign_of(alloc: Global, path: &str) -> io::Result<String> {
    Ok(format!(in alloc; "{path}.low")?)
}

// What a battery says where its sign was looked for: Good where it surely isn't there.
fn battery_by(sign_is_there: io::Result<bool>) -> Battery
    ensures { result ≡ Battery.Good ↔ sign_is_there ≡ Ok false }
{
    match sign_is_there {
        Ok(false) => Battery::Good,
        Ok(true) | Err(_) => Battery::Low,
    }
}

impl BoardFile {
    /// Opens the board at that path. It fails where there is none, and where its length is that of no board.
    pub fn open<T: Files<File = File> + AllocGlobal>(
        system: &T,
        path: &str,
    ) -> io::Result<BoardFile> {
        let low_sign = low_sign_of(system.alloc(), path)?;
        let file = open_device(system, path)?;
        let Some(buffers) = buffers_in(file.metadata()?.len()) else {
            return Err(io::Error::from(ErrorKind::InvalidData));
        };
        let mut mark = [0];
        file.read_exact_at(&mut mark, kept_place(buffers))?;
        Ok(BoardFile {
            file,
            low_sign,
            buffers,
            kept: mark[0] == KEPT,
        })
    }

    /// Makes a board of zeros whose memory was kept, in place of any file at that path. It fails where that isn't the number of
    /// buffers of a board. After an error the file there is no board, or one that lost its memory.
    pub fn make<T: Files<File = File> + AllocGlobal>(
        system: &T,
        path: &str,
        buffers: u32,
    ) -> io::Result<BoardFile>
        ensures buffers { IfOk result (λ board. board.buffers ≡ buffers) }
        ensures kept { IfOk result (λ board. board.kept ≡ true) }
    {
        if !(FEWEST_BUFFERS..=MOST_BUFFERS).contains(&buffers) {
            return Err(io::Error::from(ErrorKind::InvalidInput));
        }
        let low_sign = low_sign_of(system.alloc(), path)?;
        let file = make_device(system, path, board_length(buffers))?;
        put(&file, &[KEPT], kept_place(buffers))?;
        Ok(BoardFile {
            file,
            low_sign,
            buffers,
            kept: true,
        })
    }

    /// The number of buffers, from 2 to 2,048.
    pub fn buffers(&self) -> u32
        ensures buffers { result ≡ self.now.buffers }
        ensures most { result ≤ 2048 }
    {
        self.buffers
    }

    /// Whether the memory was kept.
    pub fn kept(&self) -> bool
        ensures { result ≡ self.now.kept }
    {
        self.kept
    }

    /// Marks the memory as kept. After an error the file's mark is as it was, or that.
    pub fn mark_kept(&mut self) -> io::Result<()>
        ensures kept { OnOk result (self.new.kept ≡ true) }
        ensures not_kept { OnErr result (self.new.kept ≡ self.old.kept) }
        ensures buffers { self.new.buffers ≡ self.old.buffers }
    {
        put(&self.file, &[KEPT], kept_place(self.buffers))?;
        self.kept = true;
        Ok(())
    }

    /// What the battery says: Low where the file named like the board with `.low` behind is there, or it can't be told.
    pub fn battery(&self, files: &impl Files) -> Battery {
        battery_by(fs::exists(files, self.low_sign.as_str()))
    }

    /// The word at that index.
    pub fn load_word(&self, index: u32) -> io::Result<u64>
        requires { index ≤ self.now.buffers }
    {
        let mut bytes = [0; 8];
        self.file.read_exact_at(&mut bytes, word_place(index))?;
        Ok(word_of_bytes(&bytes))
    }

    /// Stores a word. After an error that word is old or new.
    pub fn store_word(&self, index: u32, word: u64) -> io::Result<()>
        requires { index ≤ self.now.buffers }
    {
        put(&self.file, &bytes_of_word(word), word_place(index))
    }

    /// The bytes of a buffer. After an error `into` holds any bytes.
    pub fn load_buffer(&self, index: u32, into: &mut [u8; 512]) -> io::Result<()>
        requires { index < self.now.buffers }
    {
        self.file
            .read_exact_at(into, buffer_place(self.buffers, index))
    }

    /// Stores a buffer. After an error that buffer holds any bytes.
    pub fn store_buffer(&self, index: u32, bytes: &[u8; 512]) -> io::Result<()>
        requires { index < self.now.buffers }
    {
        put(&self.file, bytes, buffer_place(self.buffers, index))
    }
}
