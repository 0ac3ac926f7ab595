//! The words with which calls begin.
ghost use Rattle.std.specs.Prelude.{◌≡◌, Some};
ghost use Rattle.journal.specs.Verbs.{verb_text, verb_of};

use std::fmt;
use words::is_word;

/// The calls of a house, each by its word.
#[derive(Clone, Copy, PartialEq, Eq, Debug)]
pub enum Verb {
    /// Files a year's revenues.
    Year,
    /// Publishes a tariff.
    Tariff,
    /// Takes a station's reading.
    Meter,
    /// Takes a licensee's reading.
    Deliver,
    /// Closes the open month.
    Close,
    /// Draws an order on a place's money.
    Draw,
    /// Pays an order.
    Release,
    /// Puts an order's cents back.
    Hold,
}

impl Verb {
    const ALL: [Verb; 8] = [
        Verb::Year,
        Verb::Tariff,
        Verb::Meter,
        Verb::Deliver,
        Verb::Close,
        Verb::Draw,
        Verb::Release,
        Verb::Hold,
    ];

    /// The word itself.
    pub fn text(self) -> &'static str
        ensures { result.now ≡ verb_text self }
    {
        match self {
            Verb::Year => "year",
            Verb::Tariff => "tariff",
            Verb::Meter => "meter",
            Verb::Deliver => "deliver",
            Verb::Close => "close",
            Verb::Draw => "draw",
            Verb::Release => "release",
            Verb::Hold => "hold",
        }
    }

    /// The verb that a word is.
    pub fn of(word: &[u8]) -> Option<Verb>
        ensures { result ≡ verb_of word.now }
    {
        Verb::ALL
            .iter()
            .find(|verb| is_word(word, verb.text().as_bytes()))
            .copied()
    }
}

/// As its word.
impl fmt::Display for Verb {
    ghost output = { λ verb. Some (verb_text verb) };

    fn fmt<W: fmt::Write>(&self, f: &mut fmt::Formatter<W>) -> fmt::Result {
        f.write_str(self.text())
    }
}
