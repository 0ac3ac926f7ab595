//! The money of one place.
ghost use Rattle.std.specs.Prelude.{◌≡◌, ◌+◌, ◌*◌, ◌≤◌, nat_le, is_some, IfSome};
ghost use Rattle.arith.specs.Money.{cent};
ghost use Rattle.orders.specs.Limits.{money_limit};

use arith::CENT;

/// Most that may stand at a place and be on its orders together, grains: well within 64 bits.
pub const MONEY_LIMIT: u64 = 4_000_000_000_000_000_000;

/// What a place has. Its money stands there until an order is drawn on it.
#[derive(Clone, Copy)]
pub struct Money {
    /// Grains that no order is drawn on.
    pub standing: u64,
    /// Cents on orders that are drawn and neither released nor held.
    pub on_orders: u64,
    ghost within: { standing + cent * on_orders ≤ money_limit },
}

impl Money {
    ghost use Rattle.orders.specs.Money.{held_in, MoreStanding};

    /// No money.
    pub(crate) fn none() -> Money
        ensures { (result.standing ≡ 0) × (result.on_orders ≡ 0) }
    {
        Money {
            standing: 0,
            on_orders: 0,
        }
    }

    /// It with so many grains more standing, where that keeps the limit.
    pub(crate) fn with(self, grains: u128) -> Option<Money>
        ensures room { is_some result ≡ nat_le (grains + held_in self) money_limit }
        ensures more { IfSome result (MoreStanding self grains) }
    {
        let room = MONEY_LIMIT - (self.standing + CENT * self.on_orders);
        let grains = u64::try_from(grains).ok().filter(|grains| *grains <= room)?;
        Some(Money {
            standing: self.standing + grains,
            on_orders: self.on_orders,
        })
    }
}
