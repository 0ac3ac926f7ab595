//! A call of a journal, and where it stands.
use crate::request::Request;

/// A call as its line asks for it.
#[derive(Clone, Copy)]
pub struct Entry<'a> {
    /// The line's number, counted from 1.
    pub line: usize,
    /// What it asks.
    pub request: Request<'a>,
}
