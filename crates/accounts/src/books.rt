//! The books: what lasts from month to month.
ghost use Rattle.std.specs.Prelude.{◌≡◌, ℕ, ◌<◌, length, slice_index};
ghost use Rattle.metering.specs.Limits.{licensee_limit};
ghost use Rattle.methodology.specs.Limits.{head_limit};
ghost use Rattle.arith.specs.Money.{cent};

use crate::account::Account;
use metering::LICENSEE_COUNT;
use rates::HEADS;

/// The heads' accounts, head 1 first, and what each licensee owes of a cent that is not yet billed, in grains, licensee 1 first.
#[derive(Clone, Copy)]
pub struct Books {
    pub accounts: [Account; HEADS],
    pub fractions: [u64; LICENSEE_COUNT],
    ghost headed: { length accounts ≡ head_limit },
    ghost full: { length fractions ≡ licensee_limit },
    ghost cents: { (l : ℕ) → l < licensee_limit → slice_index fractions l < cent },
}

impl Books {
    ghost use Rattle.accounts.specs.Books.{Unused, PeriodBegun, earlier};

    /// Books without money.
    pub fn new() -> Books
        ensures { Unused result }
    {
        let account = Account {
            balance: 0,
            opening: 0,
            before: 0,
            carry: 0,
        };
        Books {
            accounts: [account; HEADS],
            fractions: [0; LICENSEE_COUNT],
        }
    }

    /// Ends a tariff period and begins the next one.
    pub fn begin_period(&mut self)
        ensures { PeriodBegun self.old self.new }
    {
        *self = Books {
            accounts: self.accounts.map(|account| account.begun()),
            fractions: self.fractions,
        };
    }

    /// By head, what a tariff that is filed now adjusts for: the differences of the period before this one,
    /// which is two before the period that the tariff begins.
    pub fn earlier(&self) -> [i64; HEADS]
        ensures { result ≡ earlier self.now }
    {
        self.accounts.map(|account| account.before)
    }
}
