//! What a line of a journal asks of the house.
ghost use Rattle.std.specs.Prelude.{◌≡◌};
ghost use Rattle.words.specs.Pieces.{left};
ghost use Rattle.journal.specs.Fields.{single};
ghost use Rattle.journal.specs.Requests.{Tells, TakesName, TellsName, alone, file_of, close_of, draw_of};

use crate::expected::Expected;
use crate::field::{ended, field, single};
use crate::name::Name;
use tariffs::{Filing, Row};
use words::Words;

/// What the house is asked to do. Meter files are given by their names, orders by the order of their draws.
#[derive(Clone, Copy)]
pub enum Request<'a> {
    /// To file the allowed revenues of a year, in cents.
    Year(Row),
    /// To publish rates by this filing.
    Tariff(Filing),
    /// To take the reading of a station's meter file.
    Meter(&'a [u8]),
    /// To take the reading of a licensee's meter file.
    Deliver(&'a [u8]),
    /// To close the month, which must have so many readings of either side.
    Close { readings: usize, deliveries: usize },
    /// To draw the money that stands at a place.
    Draw(u8),
    /// To pay the order of an accepted draw, counted from 1.
    Release(usize),
    /// To put the money of the order of an accepted draw, counted from 1, back to its place.
    Hold(usize),
}

/// Takes the name of a meter file.
fn file<'a>(words: &mut Words<'a>) -> Result<&'a [u8], Expected>
    ensures { TakesName (file_of (left words.old)) result (left words.new) }
{
    words.next().ok_or(Expected::FileName)
}

/// Reads a line that names a meter file and no more.
pub(crate) fn meter_file<'a>(mut words: Words<'a>) -> Result<&'a [u8], Expected>
    ensures { TellsName (alone (file_of (left words.entry))) result }
{
    let name = file(&mut words)?;
    ended(words)?;
    Ok(name)
}

/// Reads a closing's line.
#[tactic(auto, unfolding(crate::specs::Requests::close_of))]
pub(crate) fn close<'a>(mut words: Words<'a>) -> Result<Request<'a>, Expected>
    ensures { Tells (close_of (left words.entry)) result }
{
    let counts = field(&mut words, Name::Close, 2)?;
    ended(words)?;
    // `usize` has 64 bits, so `as` loses nothing, here and below.
    Ok(Request::Close {
        readings: counts.figures[0] as usize,
        deliveries: counts.figures[1] as usize,
    })
}

/// Reads a draw's line.
#[tactic(auto, unfolding(crate::specs::Requests::draw_of))]
pub(crate) fn draw<'a>(mut words: Words<'a>) -> Result<Request<'a>, Expected>
    ensures { Tells (draw_of (left words.entry)) result }
{
    let place = single(&mut words, Name::Draw)?;
    ended(words)?;
    let place = u8::try_from(place).map_err(|_| Expected::Most {
        name: Name::Draw,
        most: u64::from(u8::MAX),
    })?;
    Ok(Request::Draw(place))
}

/// Reads a line that names an order, by the order of its draw, and no more.
pub(crate) fn order(mut words: Words, name: Name) -> Result<usize, Expected>
    ensures { result ≡ alone (single name (left words.entry)) }
{
    let order = single(&mut words, name)?;
    ended(words)?;
    Ok(order as usize)
}
