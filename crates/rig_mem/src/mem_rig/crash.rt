// What a crash leaves of a rig in memory.
ghost use Rattle.std.specs.Prelude.{◌≡◌, length, replicate};

use super::MemRig;
use super::sectors::filled;
use rig::Battery;

impl MemRig {
    ghost use Rattle.rig_mem.specs.Rigs.{IsCrashOf};

    /// Starts anew with what is left: no faults, nothing planned, no battery readings, the battery Good, call number 1. The
    /// clock goes on. Where `kept` is false a board has lost its memory, and holds bytes made from `pick`.
    pub fn crash(mut self, kept: bool, pick: u64) -> MemRig
        ensures { IsCrashOf self kept pick result }
    {
        self.history.restart();
        self.trouble.restart();
        self.writes = 0;
        self.readings = 0;
        self.last = None;
        self.battery = Battery::Good;
        self.low_from = None;
        if kept || self.buffers.is_empty() {
            return self;
        }
        lose_words(&mut self.words, pick);
        lose_buffers(&mut self.buffers, (pick % 256) as u8);
        self.kept = false;
        self
    }
}

// The memory of a board is gone: other words.
fn lose_words(words: &mut Vec<u64>, pick: u64)
    ensures { words.new.items ≡ replicate (length words.old.items) pick }
{
    words.as_mut_slice().fill(pick);
}

// The memory of a board is gone: other bytes.
fn lose_buffers(buffers: &mut Vec<[u8; 512]>, byte: u8)
    ensures { buffers.new.items ≡ replicate (length buffers.old.items) (replicate 512 byte) }
{
    let bytes = filled(byte);
    for i in 0..buffers.len() {
        buffers[i] = bytes;
    }
}
