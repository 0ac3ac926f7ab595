//! Stations, and banks of them.
ghost use Rattle.stations.specs.Figures.{MakesStation};
ghost use Rattle.stations.specs.Layers.{station_meaning, base_meaning};
ghost use Rattle.stations.specs.lemmas.Layering.{base_lawful, lawful_layered};

use crate::base::Base;
use crate::figures::BaseFigures;
use agreements::limits::LAYER_LIMIT;
use agreements::{Agreement, Dues, Factor, Fault, OverLimit, indexed_dues, layer_above};
use banks::Listed;
use metering::Reading;

/// An agreement under any number of index layers: the one at the bottom, and the layers' factors in millionths as they were
/// filed, the lowest layer's first.
#[derive(Drop)]
pub struct Station {
    base: Base,
    factors: Vec<u64>,
}

/// A market's bank: a station at each place.
pub type Stations = Listed<Station>;

impl Station {
    /// A station with these figures at the bottom, under a layer for each factor.
    /// It refuses a figure over its limit (2).
    pub fn new(figures: BaseFigures, factors: Vec<u64>) -> Result<Station, OverLimit>
        ensures { MakesStation figures factors.items result }
    {
        Ok(Station {
            base: Base::try_from(figures)?,
            factors,
        })
    }
}

/// Its answers go from layer to layer in a loop, so that no number of layers wants more stack.
impl Agreement for Station {
    ghost meaning = { station_meaning };

    ghost lawful = { λ s r.
        lawful_layered s.factors.items (base_meaning s.base) r (base_lawful s.base r) };

    fn layer(&self) -> u8 {
        u8::try_from(self.factors.len()).unwrap_or(LAYER_LIMIT)
    }

    fn ask(&self, reading: &Reading, table: &mut Dues) -> Result<(), Fault> {
        let mut dues = Dues::empty();
        self.base.ask(reading, &mut dues)?;
        let mut layer = self.base.layer();
        for factor in &self.factors {
            layer = layer_above(layer);
            dues = indexed_dues(&dues, Factor::new(*factor), layer)?;
        }
        *table = dues;
        Ok(())
    }

    /// The bottom is booked only once every layer has admitted the reading.
    fn book(&mut self, reading: &Reading, table: &mut Dues) -> Result<(), Fault> {
        self.ask(reading, table)?;
        self.base.book(reading, &mut Dues::empty())?;
        Ok(())
    }
}
