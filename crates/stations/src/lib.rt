//! Stations: agreements, and banks of them, made while a program runs from the figures that an operator files.
#![tactic(auto)]

pub mod base;
pub mod figures;
pub mod station;

pub use base::Base;
pub use figures::BaseFigures;
pub use station::{Station, Stations};
