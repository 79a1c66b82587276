//! Runs over memory that fail or are cut: WRITEs and SETATTRs, boards, hurt volumes, openings and stops.

mod boards;
mod crashes;
mod growths;
mod hurts;
mod stops;
