ghost use Rattle.std.specs.Prelude.{◌≡◌, ◌<◌, ◌≤◌, ℕ, Bool, true, [], get_or, OnOk, OnErr, IfOk};
ghost use Rattle.stable.specs.Counts.{HasCause, one_more};
ghost use Rattle.rig.specs.Devices.{Devices, Sizes, Readings, HasShape, IsBoard, IsRead, with_sector, with_word, with_buffer, with_kept, Unchanged, SectorOldOrNew, WordOldOrNew, BufferAny, KeptOldOrTrue};
ghost use Rattle.stable.specs.Moments.{IsClocked, LeavesOnly};

use crate::{Battery, Failed};

/// Disk, board and battery of one volume, on one clock. A sector and a buffer have 512 bytes, a word has 64 bits.
///
/// A call that answers Ok is stable. What a call leaves that failed, or in which a crash came, is its clause `crash`.
pub trait Rig {
    /// Whether rigs of this type tell their contents. Memory does, a real device doesn't.
    ghost tells: { Type 0 };

    /// What the devices hold, where they tell it.
    ghost contents: { Self → Devices };

    /// The moment, as a number that doesn't fall.
    ghost moment: { Self → ℕ };

    /// What a crash at some moment from that one on might have left, in a call or between two, before it takes the board's memory.
    ghost left_since: { Self → ℕ → Devices → Type 0 };

    /// How many sectors, words and buffers there are.
    ghost sizes: { Self → Sizes };

    /// Whether the board kept its memory.
    ghost is_kept: { Self → Bool };

    /// How often a device has failed, up to 2 to the 64 less 1.
    ghost faults: { Self → ℕ };

    /// How many disk writes were done, counted in the same way.
    ghost disk_writes: { Self → ℕ };

    /// How often the battery was read, counted in the same way, and what it was at last.
    ghost readings: { Self → Readings };

    /// The number of sectors of the disk.
    fn sectors(&self) -> u32
        ensures { result ≡ (sizes self.now).sectors };

    /// The number of words of the board, one more than it has buffers; 0 without a board.
    fn words(&self) -> u32
        ensures { result ≡ (sizes self.now).words };

    /// The number of buffers of the board, from 2 to 2,048; 0 without a board.
    fn buffers(&self) -> u32
        ensures { result ≡ (sizes self.now).buffers };

    /// Whether the board kept its memory since it was last marked; true without a board.
    fn kept(&self) -> bool
        ensures { result ≡ is_kept self.now };

    /// Marks the board's memory as kept. After Failed the mark is as it was, or true.
    fn mark_kept(&mut self) -> Result<(), Failed>
        ensures done { tells → OnOk result (contents self.new ≡ with_kept (contents self.old)) }
        ensures kept { OnOk result (is_kept self.new ≡ true) }
        ensures kept_before { is_kept self.old ≡ true → is_kept self.new ≡ true }
        ensures crash { LeavesOnly moment left_since self.old self.new (KeptOldOrTrue (contents self.old)) }
        ensures cause { HasCause (faults self.old) (faults self.new) result }
        ensures sizes { sizes self.new ≡ sizes self.old }
        ensures disk_writes { disk_writes self.new ≡ disk_writes self.old }
        ensures readings { readings self.new ≡ readings self.old };

    /// What the battery says now: a free input, but for a rig without a board, which answers Low.
    fn battery(&mut self) -> Battery
        ensures read { IsRead (readings self.old) result (readings self.new) }
        ensures low { (sizes self.old).words ≡ 0 → result ≡ Battery.Low }
        ensures contents { contents self.new ≡ contents self.old }
        ensures crash { LeavesOnly moment left_since self.old self.new (Unchanged (contents self.old)) }
        ensures faults { faults self.new ≡ faults self.old }
        ensures sizes { sizes self.new ≡ sizes self.old }
        ensures is_kept { is_kept self.new ≡ is_kept self.old }
        ensures disk_writes { disk_writes self.new ≡ disk_writes self.old };

    /// Reads a sector. After Failed `into` holds any bytes.
    fn read(&mut self, sector: u32, into: &mut [u8; 512]) -> Result<(), Failed>
        requires { sector < (sizes self.old).sectors }
        ensures done { tells → OnOk result (into.new ≡ get_or (contents self.old).disk sector []) }
        ensures contents { contents self.new ≡ contents self.old }
        ensures crash { LeavesOnly moment left_since self.old self.new (Unchanged (contents self.old)) }
        ensures cause { HasCause (faults self.old) (faults self.new) result }
        ensures sizes { sizes self.new ≡ sizes self.old }
        ensures is_kept { is_kept self.new ≡ is_kept self.old }
        ensures disk_writes { disk_writes self.new ≡ disk_writes self.old }
        ensures readings { readings self.new ≡ readings self.old };

    /// Writes a sector. After Failed that sector is old or new.
    fn write(&mut self, sector: u32, bytes: &[u8; 512]) -> Result<(), Failed>
        requires { sector < (sizes self.old).sectors }
        ensures done { tells → OnOk result (contents self.new ≡ with_sector (contents self.old) sector bytes.now) }
        ensures crash { LeavesOnly moment left_since self.old self.new (SectorOldOrNew sector bytes.now (contents self.old)) }
        ensures cause { HasCause (faults self.old) (faults self.new) result }
        ensures sizes { sizes self.new ≡ sizes self.old }
        ensures is_kept { is_kept self.new ≡ is_kept self.old }
        ensures written { OnOk result (disk_writes self.new ≡ one_more (disk_writes self.old)) }
        ensures unwritten { OnErr result (disk_writes self.new ≡ disk_writes self.old) }
        ensures readings { readings self.new ≡ readings self.old };

    /// Loads a word of the board.
    fn load_word(&mut self, index: u32) -> Result<u64, Failed>
        requires { index < (sizes self.old).words }
        ensures done { tells → IfOk result (λ word. word ≡ get_or (contents self.old).words index 0) }
        ensures contents { contents self.new ≡ contents self.old }
        ensures crash { LeavesOnly moment left_since self.old self.new (Unchanged (contents self.old)) }
        ensures cause { HasCause (faults self.old) (faults self.new) result }
        ensures sizes { sizes self.new ≡ sizes self.old }
        ensures is_kept { is_kept self.new ≡ is_kept self.old }
        ensures disk_writes { disk_writes self.new ≡ disk_writes self.old }
        ensures readings { readings self.new ≡ readings self.old };

    /// Stores a word of the board. After Failed that word is old or new.
    fn store_word(&mut self, index: u32, word: u64) -> Result<(), Failed>
        requires { index < (sizes self.old).words }
        ensures done { tells → OnOk result (contents self.new ≡ with_word (contents self.old) index word) }
        ensures crash { LeavesOnly moment left_since self.old self.new (WordOldOrNew index word (contents self.old)) }
        ensures cause { HasCause (faults self.old) (faults self.new) result }
        ensures sizes { sizes self.new ≡ sizes self.old }
        ensures is_kept { is_kept self.new ≡ is_kept self.old }
        ensures disk_writes { disk_writes self.new ≡ disk_writes self.old }
        ensures readings { readings self.new ≡ readings self.old };

    /// Loads a buffer of the board. After Failed `into` holds any bytes.
    fn load_buffer(&mut self, index: u32, into: &mut [u8; 512]) -> Result<(), Failed>
        requires { index < (sizes self.old).buffers }
        ensures done { tells → OnOk result (into.new ≡ get_or (contents self.old).buffers index []) }
        ensures contents { contents self.new ≡ contents self.old }
        ensures crash { LeavesOnly moment left_since self.old self.new (Unchanged (contents self.old)) }
        ensures cause { HasCause (faults self.old) (faults self.new) result }
        ensures sizes { sizes self.new ≡ sizes self.old }
        ensures is_kept { is_kept self.new ≡ is_kept self.old }
        ensures disk_writes { disk_writes self.new ≡ disk_writes self.old }
        ensures readings { readings self.new ≡ readings self.old };

    /// Stores a buffer of the board. After Failed that buffer holds any bytes.
    fn store_buffer(&mut self, index: u32, bytes: &[u8; 512]) -> Result<(), Failed>
        requires { index < (sizes self.old).buffers }
        ensures done { tells → OnOk result (contents self.new ≡ with_buffer (contents self.old) index bytes.now) }
        ensures crash { LeavesOnly moment left_since self.old self.new (BufferAny index (contents self.old)) }
        ensures cause { HasCause (faults self.old) (faults self.new) result }
        ensures sizes { sizes self.new ≡ sizes self.old }
        ensures is_kept { is_kept self.new ≡ is_kept self.old }
        ensures disk_writes { disk_writes self.new ≡ disk_writes self.old }
        ensures readings { readings self.new ≡ readings self.old };

    /// The contents now are an image, the only one since now, and images are told only where contents are.
    ghost clocked: { IsClocked tells contents moment left_since };

    /// Each image is whole.
    ghost shape: { (r : Self) (t : ℕ) (d : Devices) → left_since r t d → HasShape (sizes r) d };

    /// `kept` tells the mark of the contents.
    ghost kept_told: { (r : Self) → tells → (contents r).kept ≡ is_kept r };

    /// No board, or one with a word more than it has buffers. Without one, nothing is lost.
    ghost board: { (r : Self) → IsBoard (sizes r) (is_kept r) };
}
