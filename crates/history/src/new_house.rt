//! A house to be made, and performing a list of calls on it.
ghost use Rattle.std.specs.Prelude.{◌≡◌, [], IfOk};
ghost use Rattle.history.specs.Slots.{slots_of};
ghost use Rattle.history.specs.Bearing.{Foreign};
ghost use Rattle.history.specs.Performing.{Performs, Perform};

use crate::answer::Answer;
use crate::call::Call;
use crate::desk::Desk;
use crate::order_list::Orders;
use crate::performance::{Performance, Unperformed};
use banks::Bank;
use house::House;
use methodology::Methodology;
use std::alloc::{AllocError, Global};

/// What a house is to be made of.
#[derive(Drop)]
pub struct NewHouse<B, M> {
    /// The stations' agreements.
    pub bank: B,
    /// The market's own rules.
    pub methodology: M,
    /// The number that its pay orders are to bear, which should be one that no other house's orders bear.
    pub serial: u64,
}

impl<B: Bank + Drop, M: Methodology + Drop> NewHouse<B, M> {
    /// Makes the house, and then the calls, one after another, beside orders of other houses.
    fn make(
        self,
        heap: Global,
        calls: &[Call],
        others: &mut Orders,
    ) -> Result<Performance<B, M>, AllocError>
        requires { Foreign self.serial (slots_of others.old) }
        ensures performed { IfOk result (Performs self (slots_of others.old) calls.now) }
        ensures others { slots_of others.new ≡ slots_of others.old }
    {
        let NewHouse {
            bank,
            methodology,
            serial,
        } = self;
        let mut answers = Vec::with_capacity(heap, calls.len())?;
        let hand = Orders::with_room(heap, calls.len())?;
        let house = House::new(bank, methodology, serial);
        let mut desk = Desk { house, hand };
        for call in calls {
            let answer = desk.step(others, call);
            answers.push_reserved(answer);
        }
        let Desk { house, hand } = desk;
        Ok(Performance {
            house,
            answers,
            hand,
        })
    }

    /// Makes the house, and then the calls, one after another. Orders of other houses may be presented among them: they come
    /// back, and stay where they are.
    pub fn perform(
        self,
        heap: Global,
        calls: &[Call],
        others: &mut Orders,
    ) -> Result<Performance<B, M>, Unperformed>
        ensures performed { Perform self (slots_of others.old) calls.now result }
        ensures others { slots_of others.new ≡ slots_of others.old }
    {
        if others.bears(self.serial) {
            return Err(Unperformed::SerialTaken);
        }
        let performance = self.make(heap, calls, others)?;
        Ok(performance)
    }

    /// The same where there is no order of another house.
    pub fn perform_alone(
        self,
        heap: Global,
        calls: &[Call],
    ) -> Result<Performance<B, M>, AllocError>
        ensures { IfOk result (Performs self [] calls.now) }
    {
        let mut none = Orders::with_room(heap, 0)?;
        let outcome = self.perform(heap, calls, &mut none);
        none.finish();
        outcome.map_err(|_| AllocError)
    }
}
