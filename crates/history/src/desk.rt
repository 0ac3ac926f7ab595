//! A house at work on a list of calls.
ghost use Rattle.std.specs.Prelude.{◌≡◌};
ghost use Rattle.house.specs.Shown.{shows};
ghost use Rattle.history.specs.Slots.{room_in};
ghost use Rattle.history.specs.Steps.{Closes};
ghost use Rattle.history.specs.Desks.{Roomy, OfOthers, DrawsInto, Steps};

use crate::answer::Answer;
use crate::call::{Call, Named, Stated};
use crate::order_list::Orders;
use crate::spending::Spending;
use accounts::Sheet;
use banks::Bank;
use house::House;
use methodology::Methodology;

/// Closes the month on a sheet of its own.
fn close<B: Bank, M: Methodology>(house: &mut House<B, M>, stated: Stated) -> Answer
    ensures { Closes (shows house.old) stated result (shows house.new) }
{
    let mut sheet = Sheet::empty(M::shape());
    match house.close(stated.readings, stated.deliveries, &mut sheet) {
        Ok(()) => Answer::Closed(sheet),
        Err(why) => Answer::Refused(why),
    }
}

/// A house at work on a list of calls, with the orders that it has in hand. Those of other houses are passed beside it.
pub(crate) struct Desk<B: Bank, M: Methodology> {
    pub(crate) house: House<B, M>,
    pub(crate) hand: Orders,
}

impl<B: Bank, M: Methodology> Desk<B, M> {
    /// Draws, and keeps the order in hand under the next number.
    fn draw(&mut self, place: u8) -> Answer
        requires { Roomy self.old }
        ensures drawn { DrawsInto self.old place result self.new }
        ensures room { room_in self.new.hand ≡ room_in self.old.hand }
    {
        match self.house.draw(place) {
            Ok(order) => {
                let answer = Answer::Drawn(order.place(), order.cents());
                self.hand.keep(order);
                answer
            }
            Err(why) => Answer::Refused(why),
        }
    }

    /// Presents the order that is named.
    fn present(&mut self, others: &mut Orders, how: Spending, which: Named) -> Answer
        requires { OfOthers self.old others.old }
        ensures { Steps self.old others.old (Call.Present how which) result self.new others.new }
    {
        match which {
            Named::Drawn(number) => how.present(&mut self.house, &mut self.hand, number),
            Named::Other(number) => how.present(&mut self.house, others, number),
        }
    }

    /// Makes one call. Where the order that it names is not there, there is no call to make.
    pub(crate) fn step(&mut self, others: &mut Orders, call: &Call) -> Answer
        requires room { Roomy self.old }
        requires foreign { OfOthers self.old others.old }
        ensures { Steps self.old others.old call.now result self.new others.new }
    {
        match *call {
            Call::Year(given) => self.house.year(&given).into(),
            Call::Tariff(given) => self.house.tariff(&given).into(),
            Call::Meter(given) => self.house.meter(&given).into(),
            Call::Deliver(given) => self.house.deliver(&given).into(),
            Call::Close(stated) => close(&mut self.house, stated),
            Call::Draw(place) => self.draw(place),
            Call::Present(how, which) => self.present(others, how, which),
        }
    }
}
