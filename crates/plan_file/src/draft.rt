// What is known of a file between the writes of a batch.

use files_model::Attr;

/// What is known of a file between the writes of a batch: its attributes, which of its sectors are
/// held, whether it has a block of addresses, and how many blocks of its volume are free.
#[derive(Clone, Copy)]
pub struct Draft {
    pub attr: Attr,
    pub held: [bool; 138],
    pub mapped: bool,
    pub free: u32,
}
