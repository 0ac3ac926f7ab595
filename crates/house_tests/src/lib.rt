//! Examples for the house: lists of calls that are performed, and what is answered to each.
#![tactic(auto)]

#[cfg(test)]
mod closings;
#[cfg(test)]
mod filings;
#[cfg(test)]
mod first_month;
#[cfg(test)]
mod foreign;
#[cfg(test)]
mod market;
#[cfg(test)]
mod money;
#[cfg(test)]
mod refusals;
#[cfg(test)]
mod reply;
