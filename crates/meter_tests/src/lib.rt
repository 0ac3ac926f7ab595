//! Meter files by example: each limit at and past it, the order of the checks, and what stays when a call refuses.
#![tactic(auto)]

#[cfg(test)]
mod figures;
#[cfg(test)]
mod limits;
#[cfg(test)]
mod reading;
#[cfg(test)]
mod text;
