//! The money of a place.
ghost use Rattle.std.specs.Prelude.{◌≡◌, ◌+◌, ◌^◌, ◌≤◌, Some};

use std::fmt;

/// What came to a place, in grains, and where it is.
#[derive(Clone, Copy)]
pub struct PlaceMoney {
    /// On orders that were released.
    pub released: u128,
    /// On orders that are in hand.
    pub in_hand: u128,
    /// That stands at the place and is on no order.
    pub standing: u128,
    /// What its agreement's terms give for its accepted readings.
    pub terms: u128,
    ghost modest: { released + in_hand + standing ≤ 2 ^ 120 },
}

impl PlaceMoney {
    /// The three together.
    pub fn sum(&self) -> u128
        ensures { result ≡ self.now.released + self.now.in_hand + self.now.standing }
    {
        self.released + self.in_hand + self.standing
    }
}

/// As `released 5500000 in-hand 0 standing 0 sum 5500000 terms 5500000`.
impl fmt::Display for PlaceMoney {
    ghost use Rattle.statement.specs.Text.{money_text};

    ghost output = { λ m. Some (money_text m) };

    fn fmt<W: fmt::Write>(&self, f: &mut fmt::Formatter<W>) -> fmt::Result {
        let PlaceMoney {
            released,
            in_hand,
            standing,
            terms,
        } = *self;
        let sum = self.sum();
        write!(
            f,
            "released {released} in-hand {in_hand} standing {standing} sum {sum} terms {terms}"
        )
    }
}
