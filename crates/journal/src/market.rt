//! Which of the two markets a journal is of, on which depends how many figures some of its lines have.
ghost use Rattle.std.specs.Prelude.{◌≡◌};
ghost use Rattle.words.specs.Pieces.{left};
ghost use Rattle.journal.specs.Fields.{Takes};
ghost use Rattle.journal.specs.Headings.{revenues_of, intervals_of};
ghost use Rattle.journal.specs.Requests.{Tells, filing_of, year_of, tariff_of, request_of};

use crate::expected::Expected;
use crate::field::{ended, field, single};
pub use crate::heading::{Heading, read_heading};
use crate::name::Name;
use crate::request::{Request, close, draw, meter_file, order};
use crate::verb::Verb;
use methodology::{Methodology, Shape, ThreeIntervals, TwoIntervals};
use tariffs::Filing;
use words::Words;

/// The market of three intervals or of two.
#[derive(Clone, Copy)]
pub enum Market {
    Three,
    Two,
}

impl Market {
    /// How many allowed revenues a year files, and how many intervals a day has.
    pub fn shape(self) -> Shape
        ensures revenues { result.revenues ≡ revenues_of self }
        ensures intervals { result.intervals ≡ intervals_of self }
    {
        match self {
            Market::Three => ThreeIntervals::shape(),
            Market::Two => TwoIntervals::shape(),
        }
    }

    /// Takes what a tariff files.
    #[tactic(auto, unfolding(crate::specs::Requests::filing_of))]
    fn filing(self, words: &mut Words) -> Result<Filing, Expected>
        ensures { Takes (filing_of self (left words.old)) result (left words.new) }
    {
        let shape = self.shape();
        let costs = field(words, Name::Costs, 1 + shape.revenues)?;
        let peaks = single(words, Name::Peaks)?;
        let energy_cost = single(words, Name::Energy)?;
        let sent = single(words, Name::Sent)?;
        let delivered = field(words, Name::Delivered, shape.intervals)?;
        let factors = field(words, Name::Losses, shape.intervals)?;
        let coefficients = field(words, Name::Coefficients, shape.intervals)?;
        let interest = single(words, Name::Interest)?;
        Ok(Filing {
            costs,
            peaks,
            energy_cost,
            sent,
            delivered,
            factors,
            coefficients,
            interest,
        })
    }

    /// Reads a year's line.
    #[tactic(auto, unfolding(crate::specs::Requests::year_of))]
    fn year<'a>(self, mut words: Words<'a>) -> Result<Request<'a>, Expected>
        ensures { Tells (year_of self (left words.entry)) result }
    {
        let revenues = field(&mut words, Name::Year, self.shape().revenues)?;
        ended(words)?;
        Ok(Request::Year(revenues))
    }

    /// Reads a tariff's line, from behind the word that begins it.
    #[tactic(auto, unfolding(crate::specs::Requests::tariff_of))]
    fn tariff<'a>(self, mut words: Words<'a>) -> Result<Request<'a>, Expected>
        ensures { Tells (tariff_of self (left words.entry)) result }
    {
        let filing = self.filing(&mut words)?;
        ended(words)?;
        Ok(Request::Tariff(filing))
    }

    /// Reads a call's line; `other` is what was expected of a line that begins with no verb.
    #[tactic(auto, unfolding(crate::specs::Requests::request_of, crate::specs::Requests::meter_of, crate::specs::Requests::deliver_of, crate::specs::Requests::release_of, crate::specs::Requests::hold_of))]
    pub fn request<'a>(self, words: Words<'a>, other: Expected) -> Result<Request<'a>, Expected>
        ensures { Tells (request_of self other (left words.entry)) result }
    {
        let mut behind = words;
        let Some(word) = behind.next() else {
            return Err(other);
        };
        let Some(verb) = Verb::of(word) else {
            return Err(other);
        };
        match verb {
            Verb::Year => self.year(words),
            Verb::Tariff => self.tariff(behind),
            Verb::Meter => Ok(Request::Meter(meter_file(behind)?)),
            Verb::Deliver => Ok(Request::Deliver(meter_file(behind)?)),
            Verb::Close => close(words),
            Verb::Draw => draw(words),
            Verb::Release => Ok(Request::Release(order(words, Name::Release)?)),
            Verb::Hold => Ok(Request::Hold(order(words, Name::Hold)?)),
        }
    }
}
