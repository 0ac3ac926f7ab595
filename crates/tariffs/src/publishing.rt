//! The publishing of a tariff.
ghost use Rattle.tariffs.specs.Publishing.{Publishes};

use crate::filed::Filed;
use crate::filing::Filing;
use crate::refusal::TariffFault;
use methodology::Shape;
use rates::{HEADS, Rates};

/// The rates of a tariff, from what is filed and from each head's differences in an earlier period, grains. Refused with 14
/// where the filing does not fit the heads or its limits, with 15 where a rate is outside its own.
pub fn publish(shape: Shape, filing: &Filing, earlier: &[i64; HEADS]) -> Result<Rates, TariffFault>
    ensures { Publishes shape filing.now earlier.now result }
{
    Filed::new(shape, filing)?.rates(earlier)
}
