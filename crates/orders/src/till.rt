//! The till of a house: the money of each place, under the house's serial number.
ghost use Rattle.std.specs.Prelude.{◌≡◌, ◌≤◌, ◌&&◌, false, length};
ghost use Rattle.metering.specs.Limits.{place_limit};
ghost use Rattle.orders.specs.Refusals.{draw_number, credit_number};

use crate::money::Money;
use crate::order::{Paid, PayOrder, Returned};
use crate::place::Place;
use arith::{CENT, split};
use metering::PLACE_COUNT;

/// The number of the refusal that there is no such place.
const NO_PLACE: u8 = 8;

/// Takes money in at a place, draws orders on it, and takes them in again.
#[derive(Drop)]
pub struct Till {
    serial: u64,
    money: [Money; PLACE_COUNT],
    ghost full: { length money ≡ place_limit },
}

impl Till {
    ghost use Rattle.orders.specs.Tills.{is_place, New, MoneyAt, NoMoney, Puts, Credits, Draws};
    ghost use Rattle.orders.specs.Tills.{room, mine, Releases, Holds};

    /// A till with no money in it.
    pub fn new(serial: u64) -> Till
        ensures { New serial result }
    {
        Till {
            serial,
            money: [Money::none(); PLACE_COUNT],
        }
    }

    /// The serial number that its orders bear.
    pub fn serial(&self) -> u64
        ensures { result ≡ self.now.serial }
    {
        self.serial
    }

    /// The money of a place that there is.
    fn at(&self, place: Place) -> Money
        ensures { MoneyAt self.now place.number result }
    {
        self.money[place.index()]
    }

    /// The money of a place; none where there is no such place.
    pub fn money(&self, place: u8) -> Money
        ensures counted { 1 ≤ place → MoneyAt self.now place result }
        ensures none { is_place place ≡ false → NoMoney result }
    {
        Place::numbered(place).map_or(Money::none(), |place| self.at(place))
    }

    /// Whether so many grains more may come to a place: there is such a place, and its money keeps `MONEY_LIMIT`.
    pub fn has_room(&self, place: u8, grains: u128) -> bool
        ensures { result ≡ is_place place && room self.now place grains }
    {
        Place::numbered(place).is_some_and(|place| self.at(place).with(grains).is_some())
    }

    /// Puts other money at a place.
    fn put(&mut self, place: Place, money: Money)
        ensures { Puts self.old place.number money.standing money.on_orders self.new }
    {
        self.money[place.index()] = money;
    }

    /// Takes in so many grains, which then stand at the place. Refused with 8 where there is no such place, with 11 where its
    /// money would pass `MONEY_LIMIT`.
    pub fn credit(&mut self, place: u8, grains: u128) -> Result<(), CreditRefusal>
        ensures { Credits self.old place grains result self.new }
    {
        let place = Place::numbered(place).ok_or(CreditRefusal::NoPlace)?;
        let money = self.at(place).with(grains).ok_or(CreditRefusal::TooMuch)?;
        self.put(place, money);
        Ok(())
    }

    /// Draws an order on all whole cents that stand at the place. Refused with 8 where there is no such place, with 21 where
    /// less than a cent stands there.
    pub fn draw(&mut self, place: u8) -> Result<PayOrder, DrawRefusal>
        ensures { Draws self.old place result self.new }
    {
        let place = Place::numbered(place).ok_or(DrawRefusal::NoPlace)?;
        let money = self.at(place);
        let (cents, standing) = split(money.standing, CENT).unwrap();
        if cents == 0 {
            return Err(DrawRefusal::UnderACent);
        }
        self.put(
            place,
            Money {
                standing,
                on_orders: money.on_orders + cents,
            },
        );
        Ok(PayOrder::new(self.serial, place, cents))
    }

    /// Whether the order is one that this till may take in: it bears its serial, and its place has as much on orders.
    fn knows(&self, order: &PayOrder) -> bool
        ensures { result ≡ mine self.now order.now }
    {
        order.serial() == self.serial && order.cents() <= self.money(order.place()).on_orders
    }

    /// Pays the order. One that is not this till's comes back: that is refusal 22.
    pub fn release(&mut self, order: PayOrder) -> Result<Paid, Returned>
        ensures { Releases self.old order result self.new }
    {
        if !self.knows(&order) {
            return Err(Returned { order });
        }
        let place = order.at();
        let money = self.at(place);
        let paid = order.spent();
        self.put(
            place,
            Money {
                standing: money.standing,
                on_orders: money.on_orders - paid.cents,
            },
        );
        Ok(paid)
    }

    /// Puts the order's cents back to what stands at its place. One that is not this till's comes back: that is refusal 22.
    pub fn hold(&mut self, order: PayOrder) -> Result<(), Returned>
        ensures { Holds self.old order result self.new }
    {
        let paid = self.release(order)?;
        let grains = u128::from(CENT) * u128::from(paid.cents);
        self.credit(paid.place, grains).unwrap();
        Ok(())
    }
}

/// Why no order is drawn.
#[derive(Clone, Copy, PartialEq, Eq, Debug)]
pub enum DrawRefusal {
    /// There is no such place.
    NoPlace,
    /// Less than a cent stands at the place.
    UnderACent,
}

impl DrawRefusal {
    /// The refusal's number.
    pub fn number(self) -> u8
        ensures { result ≡ draw_number self }
    {
        match self {
            DrawRefusal::NoPlace => NO_PLACE,
            DrawRefusal::UnderACent => 21,
        }
    }
}

/// Why no money is taken in.
#[derive(Clone, Copy, PartialEq, Eq, Debug)]
pub enum CreditRefusal {
    /// There is no such place.
    NoPlace,
    /// The place's money would pass its limit.
    TooMuch,
}

impl CreditRefusal {
    /// The refusal's number.
    pub fn number(self) -> u8
        ensures { result ≡ credit_number self }
    {
        match self {
            CreditRefusal::NoPlace => NO_PLACE,
            CreditRefusal::TooMuch => 11,
        }
    }
}
