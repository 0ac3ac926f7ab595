//! Sums over a few of anything.
ghost use Rattle.std.specs.Prelude.{◌^◌, ◌≤◌, length};
ghost use Rattle.metering.specs.Limits.{licensee_limit};
ghost use Rattle.statement.specs.Totals.{SumsBy};

/// What a few items amount to together. There are at most as many as a market has licensees.
#[derive(Clone, Copy)]
pub struct Total {
    pub sum: u128,
    ghost modest: { sum ≤ 2 ^ 67 },
}

impl Total {
    /// What the items amount to.
    pub fn of<T, F: Fn(&T) -> u64>(items: &[T], amount: F) -> Total
        requires few { length items.now ≤ licensee_limit }
        requires callable { F.IsAlwaysCallable amount }
        ensures { SumsBy (F.post amount) items.now result.sum }
    {
        let mut sum = 0;
        for item in items {
            sum += u128::from(amount(item));
        }
        Total { sum }
    }
}
