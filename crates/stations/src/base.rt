//! What may stand at the bottom of a station.
ghost use Rattle.stations.specs.Figures.{MakesBase};
ghost use Rattle.stations.specs.Layers.{base_meaning};
ghost use Rattle.stations.specs.lemmas.Layering.{base_lawful};

use crate::figures::BaseFigures;
use agreements::{Agreement, Dues, Fault, OverLimit, Quota, TwoPart};
use metering::Reading;

/// An agreement that stands on no other.
#[derive(Clone, Copy)]
pub enum Base {
    TwoPart(TwoPart),
    Quota(Quota),
}

/// The agreement that figures stand for. It refuses a figure over its limit (2).
impl TryFrom<BaseFigures> for Base {
    type Error = OverLimit;

    ghost try_from_gives = { MakesBase };

    fn try_from(figures: BaseFigures) -> Result<Base, OverLimit> {
        match figures {
            BaseFigures::TwoPart {
                contracted,
                capacity,
                energy,
            } => Ok(Base::TwoPart(TwoPart::new(contracted, capacity, energy)?)),
            BaseFigures::Quota {
                quota,
                first,
                second,
            } => Ok(Base::Quota(Quota::new(quota, first, second)?)),
        }
    }
}

impl Agreement for Base {
    ghost meaning = { base_meaning };

    ghost lawful = { base_lawful };

    fn layer(&self) -> u8 {
        match self {
            Base::TwoPart(agreement) => agreement.layer(),
            Base::Quota(agreement) => agreement.layer(),
        }
    }

    fn ask(&self, reading: &Reading, table: &mut Dues) -> Result<(), Fault> {
        match self {
            Base::TwoPart(agreement) => agreement.ask(reading, table)?,
            Base::Quota(agreement) => agreement.ask(reading, table)?,
        }
        Ok(())
    }

    fn book(&mut self, reading: &Reading, table: &mut Dues) -> Result<(), Fault> {
        match self {
            Base::TwoPart(agreement) => agreement.book(reading, table)?,
            Base::Quota(agreement) => agreement.book(reading, table)?,
        }
        Ok(())
    }
}
