/// What the board's battery says of itself.
#[derive(Clone, Copy, Debug, PartialEq, Eq)]
pub enum Battery {
    /// It can hold the board's memory through a power failure.
    Good,
    /// It can't, or there is no board.
    Low,
}
