//! Whom or what a call is about, as its line names it.
ghost use Rattle.std.specs.Prelude.{◌≡◌, Some};
ghost use Rattle.printout.specs.Words.{subject_of, subject_text};

use history::{Call, Named};
use std::fmt;

/// What a call's line names besides its verb.
#[derive(Clone, Copy, PartialEq, Eq, Debug)]
pub enum Subject {
    /// The market: there is nothing to name.
    Market,
    /// A station's place.
    Place(u8),
    /// A licensee, by its number.
    Licensee(u8),
    /// The order that the draw with this number made.
    Order(usize),
    /// The order with this number among those of other houses.
    Other(usize),
}

/// The subject of a call.
impl From<&Call> for Subject {
    ghost from_gives = { λ call subject. subject ≡ subject_of call.now };

    fn from(call: &Call) -> Subject {
        match call {
            Call::Meter(reading) => Subject::Place(reading.number),
            Call::Deliver(reading) => Subject::Licensee(reading.number),
            Call::Present(_, Named::Drawn(number)) => Subject::Order(*number),
            Call::Present(_, Named::Other(number)) => Subject::Other(*number),
            _ => Subject::Market,
        }
    }
}

/// As ` place 1`, with a blank before it, or nothing.
impl fmt::Display for Subject {
    ghost output = { λ s. Some (subject_text s) };

    fn fmt<W: fmt::Write>(&self, f: &mut fmt::Formatter<W>) -> fmt::Result {
        match *self {
            Subject::Market => Ok(()),
            Subject::Place(place) => write!(f, " place {place}"),
            Subject::Licensee(number) => write!(f, " licensee {number}"),
            Subject::Order(number) => write!(f, " order {number}"),
            Subject::Other(number) => write!(f, " other {number}"),
        }
    }
}
