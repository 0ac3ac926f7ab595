//! Examples for the house over two years, in both methodologies.
#![tactic(auto)]

#[cfg(test)]
mod plan;
#[cfg(test)]
mod sums;
#[cfg(test)]
mod years;
