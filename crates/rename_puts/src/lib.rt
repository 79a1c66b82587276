//! The puts of a RENAME.
#![tactic(auto)]

mod lengthening;
mod moving;
mod naming;
mod replacing;
mod slots;
mod times;

pub use lengthening::add_longer_move;
pub use moving::add_move;
pub use naming::add_new_name;
pub use replacing::{Lost, add_replacement};
pub use slots::{Moved, SlotPlace};
