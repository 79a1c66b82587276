// What is found on the way to a unit, and the unit that was opened.
use nvram_map::Board;
use presto_cache::Cache;
use presto_states::Ring;
use presto_unit::Presto;
use rig::Rig;

/// A board that was found, as it is to be used.
#[derive(Drop)]
pub struct Found {
    pub board: Board,
    /// Its memory was lost, and it was formatted.
    pub lost: bool,
}

/// What a unit starts with.
#[derive(Drop)]
pub struct Prepared {
    pub cache: Cache,
    pub changes: Ring,
    pub lost: bool,
}

/// A unit that was opened.
#[derive(Drop)]
pub struct Opened<R: Rig + Drop> {
    pub presto: Presto<R>,
    /// How many entries of the board were flushed.
    pub recovered: u32,
    /// The board had lost its memory, and was formatted.
    pub lost: bool,
}
