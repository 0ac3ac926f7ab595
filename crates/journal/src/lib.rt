//! An operator's journal: a text that names a market, its stations, and the calls to be made, a line for each.
#![tactic(auto)]

mod draft;
pub mod entry;
pub mod expected;
mod field;
pub mod heading;
pub mod journal;
pub mod market;
pub mod name;
pub mod request;
mod station;
#[cfg(test)]
mod tests;
pub mod unread;
pub mod verb;

pub use entry::Entry;
pub use expected::Expected;
pub use journal::{Journal, parse_journal};
pub use market::Market;
pub use name::Name;
pub use request::Request;
pub use unread::{JournalFault, Unread};
pub use verb::Verb;
