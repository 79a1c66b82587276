/// What is known of one entry of the board.
#[derive(Clone, Copy)]
pub enum Slot {
    /// Its word is 0.
    Free,
    /// Its word names this sector and this buffer.
    Set {
        sector: u32,
        buffer: u32,
    },
    /// The last store of its word failed. The word is the older or the newer one, each of this sector and perhaps of a
    /// buffer, where None stands for the word 0; after a failed clearing in doubt it may be 0 too.
    Doubt {
        sector: u32,
        older: Option<u32>,
        newer: Option<u32>,
        cleared: bool,
    },
}
