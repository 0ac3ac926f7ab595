//! What a statement is made from.
ghost use Rattle.std.specs.Prelude.{◌≡◌, ℕ, ◌+◌, ◌*◌, ◌^◌, ◌<◌, ◌≤◌, unsigned_abs};
ghost use Rattle.methodology.specs.Limits.{head_limit};
ghost use Rattle.metering.specs.Limits.{place_limit};
ghost use Rattle.settlement.specs.Law.{fractions_in, balances_in, carries_in};
ghost use Rattle.statement.specs.Bounds.{call_limit, turn, Within};
ghost use Rattle.statement.specs.Sums.{Sums, Holds, HoldsEach};

use crate::account::AccountTotals;
use crate::money::PlaceMoney;
use crate::tally::Tally;
use crate::total::Total;
use accounts::Books;
use arith::CENT;
use ledger::Ledger;
use metering::PLACE_COUNT;
use std::array;

/// The sums over the answers, and what the house's ledger holds, under so many heads.
#[derive(Clone, Copy)]
pub struct Sources<'a> {
    /// The sums over the answers.
    pub tally: &'a Tally,
    /// What the house keeps after the last call.
    pub ledger: &'a Ledger,
    /// How many heads the market has.
    pub heads: usize,
    ghost few: { heads ≤ head_limit },
    ghost small: { Within (call_limit * turn) tally.now },
}

/// The licensees' fractions together.
fn fractions_in(books: &Books) -> Total
    ensures { result.sum ≡ fractions_in books.now }
{
    Total::of(&books.fractions, |fraction| *fraction)
}

/// The balances of the first so many heads together.
fn balances_in(books: &Books, heads: usize) -> i128
    requires { heads ≤ head_limit }
    ensures value { result ≡ balances_in heads books.now }
    ensures bound { unsigned_abs result ≤ 2 ^ 67 }
{
    let mut sum = 0;
    for account in &books.accounts[..heads] {
        sum += i128::from(account.balance);
    }
    sum
}

/// Their carries together.
fn carries_in(books: &Books, heads: usize) -> Total
    requires { heads ≤ head_limit }
    ensures { result.sum ≡ carries_in heads books.now }
{
    Total::of(&books.accounts[..heads], |account| account.carry)
}

impl Sources<'_> {
    /// The account over the closed months.
    pub fn account(&self) -> AccountTotals
        ensures { Sums self.now.tally.now self.now.ledger.now.books self.now.heads result }
    {
        let tally = self.tally;
        let books = &self.ledger.books;
        AccountTotals {
            bills: u128::from(CENT) * tally.bills,
            fractions: fractions_in(books).sum,
            balances: balances_in(books, self.heads),
            carries: carries_in(books, self.heads).sum,
            margins: tally.margins,
            dues: tally.dues,
            revenues: u128::from(CENT) * tally.shares,
        }
    }

    /// The money of the place that comes behind so many.
    fn money(&self, before: usize) -> PlaceMoney
        requires { before < place_limit }
        ensures { Holds self.now.tally.now self.now.ledger.now.till (before + 1) result }
    {
        let place = self.tally.places[before];
        let money = self.ledger.till.money(u8::try_from(before + 1).unwrap());
        PlaceMoney {
            released: u128::from(CENT) * place.released,
            in_hand: u128::from(CENT) * u128::from(money.on_orders),
            standing: u128::from(money.standing),
            terms: place.given,
        }
    }

    /// The money of every place, place 1 first.
    pub fn places(&self) -> [PlaceMoney; PLACE_COUNT]
        ensures { HoldsEach self.now.tally.now self.now.ledger.now.till result }
    {
        array::from_fn(|before| self.money(before))
    }
}
