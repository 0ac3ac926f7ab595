//! What an order is presented for, and presenting it.
ghost use Rattle.std.specs.Prelude.{◌≡◌};
ghost use Rattle.house.specs.Shown.{shows};
ghost use Rattle.history.specs.Slots.{room_in};
ghost use Rattle.history.specs.Presenting.{Spends, PresentsAt, PresentsIn};

use crate::answer::Answer;
use crate::order_list::Orders;
use banks::Bank;
use house::House;
use metering::index_of;
use methodology::Methodology;
use orders::{PayOrder, Returned};

/// What an order is presented for.
#[derive(Clone, Copy)]
pub enum Spending {
    /// To be paid.
    Release,
    /// To have its money stand at its place again.
    Hold,
}

impl Spending {
    /// Has the house take an order in, or gives it back.
    fn spend<B: Bank, M: Methodology>(
        self,
        house: &mut House<B, M>,
        order: PayOrder,
    ) -> Result<Answer, Returned>
        ensures { Spends self (shows house.old) order result (shows house.new) }
    {
        match self {
            Spending::Release => {
                let paid = house.release(order)?;
                Ok(Answer::Paid(paid.place, paid.cents))
            }
            Spending::Hold => {
                house.hold(order)?;
                Ok(Answer::Accepted)
            }
        }
    }

    /// Presents the order of a slot; one that is not the house's own is put back there.
    fn present_at<B: Bank, M: Methodology>(
        self,
        house: &mut House<B, M>,
        slot: &mut Option<PayOrder>,
    ) -> Answer
        ensures { PresentsAt self slot.old (shows house.old) result slot.new (shows house.new) }
    {
        let Some(order) = slot.take() else {
            return Answer::Absent;
        };
        match self.spend(house, order) {
            Ok(answer) => answer,
            Err(Returned { order }) => {
                *slot = Some(order);
                Answer::Returned
            }
        }
    }

    /// Presents the order with a number; one that is not the house's own stays where it was.
    pub fn present<B: Bank, M: Methodology>(
        self,
        house: &mut House<B, M>,
        orders: &mut Orders,
        number: usize,
    ) -> Answer
        ensures done { PresentsIn self number house.old orders.old result house.new orders.new }
        ensures room { room_in orders.new ≡ room_in orders.old }
    {
        match index_of(number, orders.slots.len()) {
            Some(index) => self.present_at(house, &mut orders.slots[index]),
            None => Answer::Absent,
        }
    }
}
