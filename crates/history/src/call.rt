//! The calls of a list: what is asked of a house, in plain numbers.
ghost use Rattle.std.specs.Prelude.{◌≡◌};

use crate::spending::Spending;
use metering::Reading;
use tariffs::{Filing, Row};

/// An order that is to be presented.
#[derive(Clone, Copy)]
pub enum Named {
    /// The one that the draw with this number made, of the draws that were accepted, counted from 1.
    Drawn(usize),
    /// The one with this number among the orders of other houses.
    Other(usize),
}

/// How many readings and deliveries a month must have.
#[derive(Clone, Copy)]
pub struct Stated {
    /// By stations.
    pub readings: usize,
    /// By licensees.
    pub deliveries: usize,
}

/// A call to make of a house. Its orders are named by number.
#[derive(Clone, Copy)]
pub enum Call {
    /// File a year's revenues, cents.
    Year(Row),
    /// Publish a tariff.
    Tariff(Filing),
    /// Take a station's reading.
    Meter(Reading),
    /// Take a licensee's reading.
    Deliver(Reading),
    /// Close the month.
    Close(Stated),
    /// Draw an order on the place with this number.
    Draw(u8),
    /// Present an order.
    Present(Spending, Named),
}

impl Call {
    /// Closing a month that must have so many readings and deliveries.
    pub fn closing(readings: usize, deliveries: usize) -> Call
        ensures { result ≡ Call.Close (record { readings = readings; deliveries = deliveries }) }
    {
        Call::Close(Stated {
            readings,
            deliveries,
        })
    }
}
