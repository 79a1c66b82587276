pub use lists::NoMemory;

/// A call of the outside failed; its object counted a fault.
#[derive(Clone, Copy, Debug, PartialEq, Eq)]
pub struct Failed;
