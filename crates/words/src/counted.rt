//! A count with its noun.
ghost use Rattle.std.specs.Prelude.{Some};
ghost use Rattle.words.specs.Messages.{counted_text};

use std::fmt;

/// How many there are of something, to be written for people.
#[derive(Clone, Copy)]
pub struct Counted {
    pub count: usize,
    /// The noun for one of them.
    pub noun: &'static str,
}

/// As `1 station` or `27 calls`.
impl fmt::Display for Counted {
    ghost output = { λ c. Some (counted_text c.count c.noun.now) };

    fn fmt<W: fmt::Write>(&self, f: &mut fmt::Formatter<W>) -> fmt::Result {
        let Counted { count, noun } = *self;
        if count == 1 {
            write!(f, "1 {noun}")
        } else {
            write!(f, "{count} {noun}s")
        }
    }
}
