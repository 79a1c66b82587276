//! Making of volumes, and the free chain that a volume has where it was stopped cleanly.
#![tactic(auto)]

mod chain;
mod fault;
mod give;
mod made;
mod put_fresh;
mod sizes;
mod stop;
mod volume_made;

pub use fault::MakeFault;
pub use sizes::fits;
pub use stop::write_chain;
pub use volume_made::make;

#[cfg(test)]
mod tests;
