// The sizes of a disk's and a board's file, and the places in a board's file.
ghost use Rattle.std.specs.Prelude.{◌≡◌, ◌+◌, ◌*◌, ◌/◌, ◌-◌, ◌<◌, ◌≤◌, ◌^◌, ◌≢◌, ℕ, IfSome, IsNone};
ghost use Rattle.byteorder.specs.Endian.{little_bytes, little_number};
ghost use Rattle.rig_file.specs.Layout.{buffer_at, kept_at, board_bytes};

use byteorder::{ByteOrder, LittleEndian};

/// The fewest buffers of a board.
pub const FEWEST_BUFFERS: u32 = 2;

/// The most buffers of a board.
pub const MOST_BUFFERS: u32 = 2048;

// What a buffer adds to a board's file: its bytes, and a word.
const BUFFER_SHARE: u64 = 520;

// What a board's file has beside: one word more, and the byte that says whether the memory was kept.
const BESIDE: u64 = 9;

/// How many sectors of 512 bytes a file of this length holds; none where it ends within one, or holds 2 to the 32 or more.
pub fn whole_sectors(length: u64) -> Option<u32>
    ensures some { IfSome result (λ sectors. length ≡ 512 * sectors) }
    ensures none { IsNone result → (sectors : ℕ) → sectors < 2 ^ 32 → length ≢ 512 * sectors }
{
    if !length.is_multiple_of(512) {
        return None;
    }
    u32::try_from(length / 512).ok()
}

/// The length of a disk's file.
pub fn disk_length(sectors: u32) -> u64
    ensures { result ≡ 512 * sectors }
{
    u64::from(sectors) * 512
}

/// How many buffers the board has whose file is so long; none where that is the length of no board.
pub fn buffers_in(length: u64) -> Option<u32>
    ensures some { IfSome result (λ buffers. (2 ≤ buffers) × (buffers ≤ 2048) × (length ≡ board_bytes buffers)) }
    ensures none { IsNone result → (buffers : ℕ) → 2 ≤ buffers → buffers ≤ 2048 → length ≢ board_bytes buffers }
{
    let rest = length.checked_sub(BESIDE)?;
    if !rest.is_multiple_of(BUFFER_SHARE) {
        return None;
    }
    let buffers = u32::try_from(rest / BUFFER_SHARE).ok()?;
    if !(FEWEST_BUFFERS..=MOST_BUFFERS).contains(&buffers) {
        return None;
    }
    Some(buffers)
}

/// The length of a board's file.
pub fn board_length(buffers: u32) -> u64
    ensures { result ≡ board_bytes buffers }
{
    kept_place(buffers) + 1
}

/// Where a word stands in a board's file.
pub fn word_place(index: u32) -> u64
    ensures { result ≡ 8 * index }
{
    u64::from(index) * 8
}

/// Where a buffer stands in the file of a board of so many.
pub fn buffer_place(buffers: u32, index: u32) -> u64
    ensures { result ≡ buffer_at buffers index }
{
    (u64::from(buffers) + 1) * 8 + u64::from(index) * 512
}

/// Where the byte stands that says whether the memory was kept.
pub fn kept_place(buffers: u32) -> u64
    ensures { result ≡ kept_at buffers }
{
    buffer_place(buffers, buffers)
}

/// A word as it stands in the file.
pub fn bytes_of_word(word: u64) -> [u8; 8]
    ensures { result ≡ little_bytes 8 word }
{
    let mut bytes = [0; 8];
    LittleEndian::write_u64(&mut bytes, word);
    bytes
}

/// The word that stands in the file as these bytes.
pub fn word_of_bytes(bytes: &[u8; 8]) -> u64
    ensures { result ≡ little_number 8 bytes.now }
{
    LittleEndian::read_u64(bytes)
}
