//! The places of a market.
ghost use Rattle.std.specs.Prelude.{◌≡◌, ◌+◌, ◌≤◌};
ghost use Rattle.metering.specs.Limits.{place_limit};

use metering::PLACES;

/// A place that there is, by its number, which counts from 1.
#[derive(Clone, Copy)]
pub(crate) struct Place {
    pub(crate) number: u8,
    ghost there: { (1 ≤ number) × (number ≤ place_limit) },
}

impl Place {
    ghost use Rattle.orders.specs.Places.{Numbered};

    /// The place with a number, if there is one.
    pub(crate) fn numbered(number: u8) -> Option<Place>
        ensures { Numbered number result }
    {
        match number {
            1..=PLACES => Some(Place { number }),
            _ => None,
        }
    }

    /// Where it stands in a list of all places.
    pub(crate) fn index(self) -> usize
        ensures { result + 1 ≡ self.number }
    {
        usize::from(self.number) - 1
    }
}
