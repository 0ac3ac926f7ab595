//! Orders under numbers.
ghost use Rattle.std.specs.Prelude.{◌≡◌, ◌<◌, ◌≤◌, [], ◌∷◌, ◌++◌, length, IfOk, Some};
ghost use Rattle.history.specs.Slots.{slots_of, slot, room_in, without, Leaves, Adds, TakesLast, Shortens, Ends};
ghost use Rattle.history.specs.Bearing.{slot_bears, any_bears};

use metering::index_of;
use orders::PayOrder;
use std::alloc::{AllocError, Global};

/// Each order stands in a slot under its number, counted from 1, until it is taken out; the slot is then empty, and no other
/// order moves up. No order can be let go, and so neither can a list of them: it ends when no slot is left.
pub struct Orders {
    pub(crate) slots: Vec<Option<PayOrder>>,
}

/// Whether an order is there that bears a serial.
fn slot_bears(slot: &Option<PayOrder>, serial: u64) -> bool
    ensures { result ≡ slot_bears serial slot.now }
{
    matches!(slot, Some(order) if order.serial() == serial)
}

impl Orders {
    /// No orders yet, with room for so many.
    pub fn with_room(heap: Global, most: usize) -> Result<Orders, AllocError>
        ensures { IfOk result (λ o. (slots_of o ≡ []) × (most ≤ room_in o)) }
    {
        let slots = Vec::with_capacity(heap, most)?;
        Ok(Orders { slots })
    }

    /// Keeps an order under the next number.
    pub(crate) fn keep(&mut self, order: PayOrder)
        requires { length (slots_of self.old) < room_in self.old }
        ensures { Leaves self.old (slots_of self.old ++ (Some order ∷ [])) self.new }
    {
        self.slots.push_reserved(Some(order));
    }

    /// Adds an order under the next number, or gives it back where there is no room.
    pub fn add(&mut self, order: PayOrder) -> Result<(), PayOrder>
        ensures { Adds self.old order result self.new }
    {
        if self.slots.len() >= self.slots.capacity() {
            return Err(order);
        }
        self.keep(order);
        Ok(())
    }

    /// Whether one of the orders bears a serial.
    pub fn bears(&self, serial: u64) -> bool
        ensures { result ≡ any_bears serial (slots_of self.now) }
    {
        self.slots.iter().any(|slot| slot_bears(slot, serial))
    }

    /// Takes out the order with a number, if it is there.
    pub fn take(&mut self, number: usize) -> Option<PayOrder>
        ensures value { result ≡ slot (slots_of self.old) number }
        ensures left { Leaves self.old (without (slots_of self.old) number) self.new }
    {
        let index = index_of(number, self.slots.len())?;
        self.slots[index].take()
    }

    /// Takes out the order with the highest number, and with it the numbers from there on.
    pub fn take_last(&mut self) -> Option<PayOrder>
        ensures taken { TakesLast self.old result self.new }
        ensures shorter { Shortens self.old result self.new }
    {
        while let Some(last) = self.slots.pop() {
            if let Some(order) = last {
                return Some(order);
            }
        }
        None
    }

    /// Lets the list go, if no number is left in it.
    pub fn end(self) -> Result<(), Orders>
        ensures { Ends self result }
    {
        if !self.slots.is_empty() {
            return Err(self);
        }
        self.finish();
        Ok(())
    }

    /// Ends a list that has no number left.
    pub(crate) fn finish(self)
        requires { slots_of self ≡ [] }
    {
        let Orders { slots } = self;
        slots.destroy_empty();
    }
}
