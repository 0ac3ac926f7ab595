//! What performing a list of calls gives back.
ghost use Rattle.std.specs.Prelude.{◌≡◌, true};
ghost use Rattle.history.specs.Slots.{slots_of, in_slots};
ghost use Rattle.history.specs.Bearing.{all_bear};
ghost use Rattle.history.specs.Holding.{Covers};
ghost use Rattle.history.specs.declared.performance.Unperformed.TheVariants.{NoMemory};

use crate::answer::Answer;
use crate::order_list::Orders;
use banks::Bank;
use house::House;
use methodology::Methodology;
use std::alloc::AllocError;

/// A list of calls that was performed. The answers come in the order of the list, and an order in hand stands under the number
/// of its draw.
pub struct Performance<B: Bank, M: Methodology> {
    /// The house after the last call.
    pub house: House<B, M>,
    /// What was answered to each call.
    pub answers: Vec<Answer>,
    /// The orders in hand.
    pub hand: Orders,
    /// The orders are the house's own, and all that it has money on orders for.
    ghost own: { all_bear house.ledger.till.serial (in_slots (slots_of hand)) ≡ true },
    ghost covered: { Covers house.ledger.till (in_slots (slots_of hand)) },
}

impl<B: Bank, M: Methodology> Performance<B, M> {
    ghost use Rattle.house.specs.Shown.{shows};
    ghost use Rattle.history.specs.Holding.{AllHeld};

    /// Has every order in hand held, so that all its money stands at the places again, and gives back the house and the answers.
    pub fn hold_all(self) -> (House<B, M>, Vec<Answer>)
        ensures held { AllHeld (shows self.house) (shows result.0) }
        ensures answers { result.1 ≡ self.answers }
    {
        let Performance {
            mut house,
            answers,
            mut hand,
        } = self;
        while let Some(order) = hand.take_last() {
            // The house takes in its own orders.
            house.hold(order).unwrap();
        }
        hand.finish();
        (house, answers)
    }
}

/// Why a list is not performed; then no call was made.
#[derive(Clone, Copy, Debug)]
pub enum Unperformed {
    /// One of the other houses' orders bears the serial that the new house was to bear.
    SerialTaken,
    /// There was no memory for the answers.
    NoMemory,
}

impl From<AllocError> for Unperformed {
    ghost from_gives = { λ _ r. r ≡ NoMemory };

    fn from(_error: AllocError) -> Unperformed {
        Unperformed::NoMemory
    }
}
