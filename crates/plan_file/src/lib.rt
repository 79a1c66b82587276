//! Plans of calls on one file: batches of writes, which may grow it.
#![tactic(auto)]

mod accepted;
mod attributes;
mod batch_plan;
mod decide;
mod draft;
mod fault;
mod filling;
mod inode;
mod laws;
mod layout;
mod places;
mod set_plan;
mod shorter;
mod started;

pub use attributes::id_of;
pub use batch_plan::{Planned, plan_writes};
pub use fault::PlanFault;
pub use laws::batch_is_planned;
pub use places::{Places, file_places};
pub use set_plan::{PlannedSet, plan_setattr};

#[cfg(test)]
mod tests;
