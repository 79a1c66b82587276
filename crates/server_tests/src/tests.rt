//! Runs over memory: what is read and refused, damage, the ends of a run, single turns, and all programs.

mod calls;
mod damages;
mod many;
mod reading;
mod refusals;
mod runs;
mod several;
mod turns;
mod wire;
