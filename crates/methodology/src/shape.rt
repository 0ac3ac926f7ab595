//! The shape of a market: its counts of revenues and of intervals, and the heads that come of them.
ghost use Rattle.std.specs.Prelude.{◌≡◌, ◌+◌, ◌≤◌, nat_le};
ghost use Rattle.methodology.specs.Limits.{revenue_limit, head_limit};

use crate::head::Head;

/// An allowed revenue is a yearly sum that the regulator lets a company collect. An interval is a part of the day with a
/// rate of its own. Heads are counted from 1: generation, then the revenues, then the intervals.
#[derive(Clone, Copy)]
pub struct Shape {
    pub revenues: usize,
    pub intervals: usize,
    ghost most: { revenues ≤ revenue_limit },
    ghost some: { 1 ≤ intervals },
    ghost few: { 1 + revenues + intervals ≤ head_limit },
}

impl Shape {
    ghost use Rattle.methodology.specs.Heads.{heads_of, head_at, Ordered, by_demand};

    /// How many heads there are.
    pub fn heads(&self) -> usize
        ensures value { result ≡ heads_of self.now }
        ensures range { (2 ≤ result) × (result ≤ head_limit) }
    {
        1 + self.revenues + self.intervals
    }

    /// The head with a number. 0 counts as 1; past the last head come intervals that no block is in.
    pub fn head(&self, number: usize) -> Head
        ensures value { result ≡ head_at self.now number }
        ensures order { Ordered self.now }
        ensures demand { by_demand result ≡ nat_le number (1 + self.now.revenues) }
    {
        if number <= 1 {
            Head::Generation
        } else if number <= 1 + self.revenues {
            Head::Revenue(number - 1)
        } else {
            Head::Interval(number - 1 - self.revenues)
        }
    }
}
