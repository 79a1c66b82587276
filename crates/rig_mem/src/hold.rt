use rig::Point;

/// Where a worker waits in a test: at its point `at`, until that other worker has reached `until`.
#[derive(Clone, Copy, Debug, PartialEq, Eq)]
pub struct Hold {
    pub at: Point,
    /// Workers are numbered from 0.
    pub worker: u32,
    pub until: Point,
}
