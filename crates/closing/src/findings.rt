//! What a closing finds, head by head, and what it makes of it.
ghost use Rattle.std.specs.Prelude.{◌≡◌, ◌<◌, ◌≤◌, true, false, length, pos, ◌-ℤ◌, ◌*ℤ◌};
ghost use Rattle.std.specs.Prelude.{unsigned_abs};
ghost use Rattle.methodology.specs.Limits.{head_limit};
ghost use Rattle.accounts.specs.Limits.{carry_limit};
ghost use Rattle.accounts.specs.Sums.{sum_toℤ, Never};
ghost use Rattle.settlement.specs.Closing.{heads, balance, margin, Over, Past};
ghost use Rattle.settlement.specs.Closed.{AccountClosed, line_of, Closed};
ghost use Rattle.closing.specs.Cases.{shows, Searched};
ghost use Rattle.closing.specs.Findings.{Found, AllFound};
ghost use Rattle.closing.specs.Limits.{difference_limit};

use crate::bills::fractions_after;
use crate::case::Case;
use crate::head::{CaseHead, first_head};
use accounts::{Account, BALANCE_LIMIT, Books, HeadLine, Sheet};
use methodology::Methodology;
use rates::HEADS;
use std::array;

/// What a closing finds for a head, all in grains: the actual rate, what is carried, the margin of an interval, and the
/// difference from what was billed.
#[derive(Clone, Copy, Default)]
pub struct Finding {
    pub actual: u64,
    pub carry: u64,
    pub margin: i64,
    pub difference: i128,
}

/// A quantity times what the actual rate is over the published one.
pub fn difference_of(quantity: u64, actual: u64, published: u64) -> i128
    requires { quantity ≤ carry_limit }
    ensures value { result ≡ pos quantity *ℤ (pos actual -ℤ pos published) }
    ensures size { unsigned_abs result ≤ difference_limit }
{
    i128::from(quantity) * (i128::from(actual) - i128::from(published))
}

/// A case with the findings of all its heads, head 1 first.
#[derive(Drop)]
pub struct Findings<'a, M: Methodology> {
    pub case: &'a Case<'a, M>,
    pub heads: [Finding; HEADS],
    ghost full: { length heads ≡ head_limit },
    ghost found: { AllFound (shows case.now) heads },
}

impl<M: Methodology> Findings<'_, M> {
    ghost use Rattle.closing.specs.Heads.{seen_in};

    /// The head at an index, with its finding.
    fn at(&self, k: usize) -> FoundHead<'_, M>
        requires { k < heads (seen_in self.now) }
        ensures case { result.head.case.now ≡ self.now.case.now }
        ensures place { result.head.k ≡ k }
    {
        FoundHead {
            head: self.case.at(k),
            finding: self.heads[k],
        }
    }

    /// The first head whose actual rate passes its limit.
    pub fn first_over(&self) -> Option<usize>
        ensures { Searched (seen_in self.now) Over result }
    {
        first_head(self.case.heads(), |k| self.at(k).is_over())
    }

    /// The first head whose balance would pass its limit in size.
    pub fn first_past(&self) -> Option<usize>
        ensures { Searched (seen_in self.now) Past result }
    {
        first_head(self.case.heads(), |k| self.at(k).is_past())
    }

    /// The margins, added up. Together they are no larger than what the month has taken in, with the carries.
    fn margin(&self) -> i64
        ensures { result ≡ sum_toℤ (margin (seen_in self.now)) (heads (seen_in self.now)) }
    {
        let mut sum = 0;
        for found in &self.heads[..self.case.heads()] {
            sum += found.margin;
        }
        sum
    }
}

/// A head with its finding.
#[derive(Drop)]
pub struct FoundHead<'a, M: Methodology> {
    pub head: CaseHead<'a, M>,
    pub finding: Finding,
    ghost found: { Found (shows head.case.now) head.k finding },
}

impl<M: Methodology> FoundHead<'_, M> {
    ghost use Rattle.closing.specs.Heads.{at_head};

    /// Whether the actual rate passes its limit.
    fn is_over(&self) -> bool
        ensures over { result ≡ true → at_head Over self.now.head }
        ensures within { result ≡ false → at_head Over self.now.head → ⊥ }
    {
        self.finding.actual > self.head.rate_limit()
    }

    /// The balance after the closing.
    #[tactic(auto, unfolding(settlement::specs::Closing::balance))]
    fn balance(&self) -> i128
        ensures { result ≡ at_head balance self.now.head }
    {
        i128::from(self.head.account().balance) + self.finding.difference
    }

    /// Whether the balance would pass its limit in size.
    fn is_past(&self) -> bool
        ensures over { result ≡ true → at_head Past self.now.head }
        ensures within { result ≡ false → at_head Past self.now.head → ⊥ }
    {
        self.balance().unsigned_abs() > u128::from(BALANCE_LIMIT)
    }

    /// Its account after the closing.
    fn account_after(&self) -> Account
        requires { at_head Past self.now.head → ⊥ }
        ensures { at_head AccountClosed self.now.head result }
    {
        let account = self.head.account();
        Account {
            // Fits: it does not pass its limit.
            balance: self.balance() as i64,
            opening: account.opening,
            before: account.before,
            carry: self.finding.carry,
        }
    }

    /// Its line of the sheet.
    fn line(&self) -> HeadLine
        requires { at_head Past self.now.head → ⊥ }
        ensures { result ≡ at_head line_of self.now.head }
    {
        let account = self.account_after();
        HeadLine {
            actual: self.finding.actual,
            published: self.head.rates().published,
            balance: account.balance,
            carry: account.carry,
        }
    }
}

/// Findings by which no balance passes its limit.
#[derive(Drop)]
pub struct Accepted<'a, M: Methodology> {
    pub findings: Findings<'a, M>,
    ghost held: { Never (Past (shows findings.case.now)) (heads (shows findings.case.now)) },
}

impl<M: Methodology> Accepted<'_, M> {
    ghost use Rattle.closing.specs.Heads.{seen_in};
    ghost use Rattle.closing.specs.Findings.{AccountsClosed, AccountsKept, LinesFilled, LinesBlank};

    /// Fills in the sheet, and answers the books after the closing.
    pub fn fill(&self, sheet: &mut Sheet) -> Books
        ensures { Closed (seen_in self.now.findings) sheet.new result }
    {
        let case = self.findings.case;
        let licensees = case.bills();
        let fractions = fractions_after(&licensees, &case.books.fractions);
        *sheet = Sheet {
            month: case.number,
            shape: M::shape(),
            heads: self.lines(),
            licensees,
            margin: self.findings.margin(),
        };
        Books {
            accounts: self.accounts(),
            fractions,
        }
    }

    /// The accounts after the closing; those past the heads stay.
    fn accounts(&self) -> [Account; HEADS]
        ensures each { AccountsClosed (seen_in self.now.findings) result }
        ensures others { AccountsKept (seen_in self.now.findings) result }
    {
        let heads = self.findings.case.heads();
        array::from_fn(|k| {
            if k < heads {
                self.findings.at(k).account_after()
            } else {
                self.findings.case.account(k)
            }
        })
    }

    /// The heads' lines of the sheet.
    fn lines(&self) -> [HeadLine; HEADS]
        ensures each { LinesFilled (seen_in self.now.findings) result }
        ensures blank { LinesBlank (seen_in self.now.findings) result }
    {
        let heads = self.findings.case.heads();
        array::from_fn(|k| {
            if k < heads {
                self.findings.at(k).line()
            } else {
                HeadLine::default()
            }
        })
    }
}
