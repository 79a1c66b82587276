// What device calls change, each recorded with what was there before.
ghost use Rattle.std.specs.Prelude.{◌≡◌, ◌<◌, [], length, get_or, set, true};
ghost use Rattle.rig_mem.specs.Recorded.{IsRecorded, IsTaken};
ghost use Rattle.rig_mem.specs.declared.change.Change.TheVariants.{Sector, Word, Buffer, Kept};

use crate::history::History;
use rig::Failed;

#[derive(Clone, Copy)]
pub enum Change {
    Sector {
        index: u32,
        before: [u8; 512],
        after: [u8; 512],
    },
    Word {
        index: u32,
        before: u64,
        after: u64,
    },
    Buffer {
        index: u32,
        before: [u8; 512],
    },
    Kept {
        before: bool,
    },
}

impl Change {
    // What putting other bytes in the place of a sector changes.
    pub fn of_sector(disk: &[[u8; 512]], index: u32, bytes: &[u8; 512]) -> Self
        requires { index < length disk.now }
        ensures { result ≡ Sector index (get_or disk.now index []) bytes.now }
    {
        Change::Sector {
            index,
            before: disk[index as usize],
            after: *bytes,
        }
    }

    // What storing a word changes.
    pub fn of_word(words: &[u64], index: u32, word: u64) -> Self
        requires { index < length words.now }
        ensures { result ≡ Word index (get_or words.now index 0) word }
    {
        Change::Word {
            index,
            before: words[index as usize],
            after: word,
        }
    }

    // What filling a buffer changes.
    pub fn of_buffer(buffers: &[[u8; 512]], index: u32) -> Self
        requires { index < length buffers.now }
        ensures { result ≡ Buffer index (get_or buffers.now index []) }
    {
        Change::Buffer {
            index,
            before: buffers[index as usize],
        }
    }
}

impl History {
    // Puts another item in a place if `takes`, and keeps the change either way.
    pub fn put<T: Copy>(
        &mut self,
        items: &mut Vec<T>,
        change: Change,
        index: u32,
        item: T,
        takes: bool,
    ) -> Result<(), Failed>
        requires { index < length items.old.items }
        ensures recorded { IsRecorded change result self.old self.new }
        ensures items { IsTaken takes result items.old.items (set items.old.items index item) items.new.items }
    {
        self.keep(change)?;
        if takes {
            items[index as usize] = item;
        }
        Ok(())
    }
}

// Marks the board's memory as kept if `takes`, and records it either way.
pub fn change_kept(kept: &mut bool, history: &mut History, takes: bool) -> Result<(), Failed>
    ensures recorded { IsRecorded (Kept kept.old) result history.old history.new }
    ensures kept { IsTaken takes result kept.old true kept.new }
{
    history.keep(Change::Kept { before: *kept })?;
    if takes {
        *kept = true;
    }
    Ok(())
}
