/// A moment of a worker's turn at which a test may hold it.
#[derive(Clone, Copy, Debug, PartialEq, Eq)]
pub enum Point {
    /// It entered the gather table.
    Entered,
    /// It left the gather table.
    Left,
    /// It holds the lock of the volume with that number.
    Holding(u32),
    /// It released its last reply.
    Answered,
}

/// Lets a worker wait for others. It changes nothing that a contract names.
pub trait Pauser {
    /// Waits a little, so that other workers can join a batch.
    fn pause(&mut self);

    /// Says that the worker has reached a point, and may wait there.
    fn gate(&mut self, point: Point);
}
