//! The account of a head.
ghost use Rattle.std.specs.Prelude.{◌*◌, ◌≤◌, unsigned_abs};
ghost use Rattle.accounts.specs.Limits.{balance_limit, carry_limit};

/// Most that a balance may be in size, grains: well within 64 bits.
pub const BALANCE_LIMIT: u64 = 4_000_000_000_000_000_000;

/// What a head keeps from month to month, in grains.
#[derive(Clone, Copy)]
pub struct Account {
    /// The differences of all closed months: above 0 where the licensees were billed too little.
    pub balance: i64,
    /// The balance when this tariff period began.
    pub opening: i64,
    /// The sum of differences of the period before this one.
    pub before: i64,
    /// What the last closing could not spread: less than a grain for each unit of the quantity. The next one spreads it.
    pub carry: u64,
    ghost held: { unsigned_abs balance ≤ balance_limit },
    ghost opened: { unsigned_abs opening ≤ balance_limit },
    ghost recalled: { unsigned_abs before ≤ 2 * balance_limit },
    ghost carried: { carry ≤ carry_limit },
}

impl Account {
    ghost use Rattle.accounts.specs.Books.{AccountBegun};

    /// The account in the next period.
    pub(crate) fn begun(self) -> Account
        ensures { AccountBegun self result }
    {
        Account {
            balance: self.balance,
            opening: self.balance,
            before: self.balance - self.opening,
            carry: self.carry,
        }
    }
}
