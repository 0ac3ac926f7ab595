//! The index layer: any agreement, with its dues scaled by a factor.
ghost use Rattle.std.specs.Prelude.{◌≡◌};
ghost use Rattle.agreements.specs.Indexes.{counted, index_dues, indexed, above};
ghost use Rattle.agreements.specs.lemmas.Indexing.{lawful_indexed};

use crate::agreement::Agreement;
use crate::dues::Dues;
use crate::factor::Factor;
use crate::fault::{Cause, Fault};
use crate::limits::DUE_LIMIT;
use metering::Reading;

/// A layer over the agreement below it, whose standing it shares. It admits no reading whose dues would pass the ceiling
/// (cause 2).
#[derive(Drop)]
pub struct Index<A> {
    below: A,
    factor: Factor,
}

impl<A> Index<A> {
    /// A layer over the agreement, with what the number counts as for its factor.
    pub fn new(below: A, factor: u64) -> Index<A>
        ensures { (result.below ≡ below) × (result.factor.ppm ≡ counted factor) }
    {
        Index {
            below,
            factor: Factor::new(factor),
        }
    }
}

impl<A: Agreement> Agreement for Index<A> {
    ghost meaning = { λ s. indexed s.factor.ppm (A.Agreement.meaning s.below) };

    ghost lawful = { λ a r.
        lawful_indexed a.factor.ppm (A.Agreement.meaning a.below) r (A.Agreement.lawful a.below r) };

    fn layer(&self) -> u8 {
        layer_above(self.below.layer())
    }

    /// A reading that the layer below turns down comes up with that layer's fault.
    fn ask(&self, reading: &Reading, table: &mut Dues) -> Result<(), Fault> {
        let mut below = Dues::empty();
        self.below.ask(reading, &mut below)?;
        *table = indexed_dues(&below, self.factor, self.layer())?;
        Ok(())
    }

    /// The layer below is booked only once this layer has admitted the reading.
    fn book(&mut self, reading: &Reading, table: &mut Dues) -> Result<(), Fault> {
        self.ask(reading, table)?;
        self.below.book(reading, &mut Dues::empty())?;
        Ok(())
    }
}

/// The number of the layer above one: the count stops at 255.
pub fn layer_above(layer: u8) -> u8
    ensures { result ≡ above layer }
{
    layer.saturating_add(1)
}

/// The dues under the factor, or the fault of the layer where they would pass the ceiling.
pub fn indexed_dues(dues: &Dues, factor: Factor, layer: u8) -> Result<Dues, Fault>
    ensures { result ≡ index_dues layer factor.ppm dues.now }
{
    let limit = u128::from(DUE_LIMIT);
    let scaled = Dues {
        capacity: factor.scale(dues.capacity),
        blocks: dues.blocks.map(|due| factor.scale(due)),
    };
    if scaled.capacity_due() > limit || scaled.block_sum() > limit {
        return Err(Fault {
            cause: Cause::Ceiling,
            layer,
        });
    }
    Ok(scaled)
}
