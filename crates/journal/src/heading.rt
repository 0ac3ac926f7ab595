//! The market's line, which comes first: which of the two markets, and the house's serial.
ghost use Rattle.std.specs.Prelude.{◌≡◌};
ghost use Rattle.words.specs.Pieces.{left};
ghost use Rattle.journal.specs.Fields.{Takes, Passes};
ghost use Rattle.journal.specs.Headings.{begun, market_of, heading_of};

use crate::expected::Expected;
use crate::field::{ended, keyword, single};
use crate::market::Market;
use crate::name::Name;
use words::Words;

/// What the market's line says.
#[derive(Clone, Copy)]
pub struct Heading {
    /// Whose rules the house goes by.
    pub market: Market,
    /// The number that the house's pay orders bear.
    pub serial: u64,
}

/// Takes the word that begins the line.
fn begun(words: &mut Words) -> Result<(), Expected>
    ensures { Passes (begun (left words.old)) result (left words.new) }
{
    keyword(words, "market", Expected::MarketLine)
}

/// Takes the word that says which market it is.
fn which(words: &mut Words) -> Result<Market, Expected>
    ensures { Takes (market_of (left words.old)) result (left words.new) }
{
    let Some(word) = words.next() else {
        return Err(Expected::MarketLine);
    };
    match word {
        b"three" => Ok(Market::Three),
        b"two" => Ok(Market::Two),
        _ => Err(Expected::MarketLine),
    }
}

/// Reads the market's line.
#[tactic(auto, unfolding(crate::specs::Headings::heading_of))]
pub fn read_heading(mut words: Words) -> Result<Heading, Expected>
    ensures { result ≡ heading_of (left words.entry) }
{
    begun(&mut words)?;
    let market = which(&mut words)?;
    let serial = single(&mut words, Name::Serial)?;
    ended(words)?;
    Ok(Heading { market, serial })
}
