//! The rules of closing a month: its figures, its refusals, what it leaves, and the law that it keeps.
#![tactic(auto)]

pub mod fault;

pub use fault::CloseFault;
