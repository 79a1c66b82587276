//! Runs over memory: names that are looked up, made and taken away.

mod creations;
mod cuts;
mod names;
mod removals;
