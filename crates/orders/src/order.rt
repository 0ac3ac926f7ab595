//! Pay orders: a till draws them, and takes each in once.
ghost use Rattle.std.specs.Prelude.{◌≡◌, ◌<◌, ◌≤◌};
ghost use Rattle.metering.specs.Limits.{place_limit};
ghost use Rattle.orders.specs.Refusals.{returned_number};

use crate::place::Place;

/// The number of the refusal of an order that is not taken in.
pub const RETURNED: u8 = 22;

/// An order to pay the station of a place. Whoever is given one must see a till take it in: it can be neither copied nor dropped.
pub struct PayOrder {
    serial: u64,
    place: u8,
    cents: u64,
    ghost placed: { (1 ≤ place) × (place ≤ place_limit) },
}

/// A draw makes no order of less than a cent, so nobody who was given one may drop it: only an order of no cents could be let go.
impl Drop for PayOrder {
    fn drop(self)
        requires { self.cents ≡ 0 }
    {
        let PayOrder {
            serial: _,
            place: _,
            cents: _,
        } = self;
    }
}

impl PayOrder {
    /// Drawn by a till only.
    pub(crate) fn new(serial: u64, place: Place, cents: u64) -> PayOrder
        requires { 0 < cents }
        ensures serial { result.serial ≡ serial }
        ensures place { result.place ≡ place.number }
        ensures cents { result.cents ≡ cents }
    {
        PayOrder {
            serial,
            place: place.number,
            cents,
        }
    }

    /// The serial of the house that drew it.
    pub fn serial(&self) -> u64
        ensures { result ≡ self.now.serial }
    {
        self.serial
    }

    /// The place that it pays, counted from 1.
    pub fn place(&self) -> u8
        ensures value { result ≡ self.now.place }
        ensures range { (1 ≤ result) × (result ≤ place_limit) }
    {
        self.place
    }

    /// Its place, which there is.
    pub(crate) fn at(&self) -> Place
        ensures { result.number ≡ self.now.place }
    {
        Place { number: self.place }
    }

    /// What it pays, in cents.
    pub fn cents(&self) -> u64
        ensures { result ≡ self.now.cents }
    {
        self.cents
    }

    /// Takes the order apart, so that its `drop` does not run.
    pub(crate) fn spent(self) -> Paid
        ensures { (result.place ≡ self.place) × (result.cents ≡ self.cents) }
    {
        let PayOrder {
            serial: _,
            place,
            cents,
        } = self;
        Paid { place, cents }
    }
}

/// What a release paid, in cents, and to which place.
#[derive(Clone, Copy, PartialEq, Eq, Debug)]
pub struct Paid {
    pub place: u8,
    pub cents: u64,
}

/// An order that a till did not take in.
pub struct Returned {
    pub order: PayOrder,
}

impl Returned {
    /// The number of this refusal: another house drew the order, or its place has less on orders.
    pub fn number(&self) -> u8
        ensures { result ≡ returned_number }
    {
        RETURNED
    }
}
