//! The account over the closed months: what the dues and the allowed revenues came to, and what covers them.
ghost use Rattle.std.specs.Prelude.{◌≡◌, ◌+◌, ◌^◌, ◌≤◌, Some};
ghost use Rattle.statement.specs.Bounds.{size_of};

use std::fmt;

/// The terms of the account, in grains (a grain is the ten-thousandth of a cent).
#[derive(Clone, Copy)]
pub struct AccountTotals {
    /// What the licensees were billed.
    pub bills: u128,
    /// The licensees' last fractions of a cent.
    pub fractions: u128,
    /// The heads' last balances: what the published rates left to be collected; below 0, what they collected too much.
    pub balances: i128,
    /// The heads' last carries: what the divisions of the last month left for the next.
    pub carries: u128,
    /// The loss margins.
    pub margins: i128,
    /// The dues of the closed months.
    pub dues: u128,
    /// The allowed revenues of the closed months.
    pub revenues: u128,
    ghost low: { size_of bills fractions carries balances margins ≤ 2 ^ 120 },
    ghost modest: { dues + revenues ≤ 2 ^ 120 },
}

impl AccountTotals {
    ghost use Rattle.statement.specs.Totals.{covered_by, costs_by};

    /// What the dues and the allowed revenues are covered by.
    pub fn covered(&self) -> i128
        ensures { result ≡ covered_by self.now }
    {
        // By the type's own bound the sum is below 2^120, so the cast leaves it as it is.
        (self.bills + self.fractions + self.carries) as i128 + self.balances + self.margins
    }

    /// What is to be paid for.
    pub fn costs(&self) -> u128
        ensures { result ≡ costs_by self.now }
    {
        self.dues + self.revenues
    }
}

/// `bills 618 fractions 7630`: what the licensees were billed, and what they still owe.
#[derive(Clone, Copy)]
struct Licensees(AccountTotals);

impl fmt::Display for Licensees {
    ghost use Rattle.statement.specs.Text.{licensees_terms};

    ghost output = { λ a. Some (licensees_terms a.0) };

    fn fmt<W: fmt::Write>(&self, f: &mut fmt::Formatter<W>) -> fmt::Result {
        let bills = self.0.bills;
        let fractions = self.0.fractions;
        write!(f, "bills {bills} fractions {fractions}")
    }
}

/// `balances 222217 carries 153 margins 0`: what the heads hold and the intervals kept.
#[derive(Clone, Copy)]
struct Heads(AccountTotals);

impl fmt::Display for Heads {
    ghost use Rattle.statement.specs.Text.{heads_terms};

    ghost output = { λ a. Some (heads_terms a.0) };

    fn fmt<W: fmt::Write>(&self, f: &mut fmt::Formatter<W>) -> fmt::Result {
        let balances = self.0.balances;
        let carries = self.0.carries;
        let margins = self.0.margins;
        write!(f, "balances {balances} carries {carries} margins {margins}")
    }
}

/// `dues 5500000 revenues 910000 sum 6410000`: what is to be paid for.
#[derive(Clone, Copy)]
struct Costs(AccountTotals);

impl fmt::Display for Costs {
    ghost use Rattle.statement.specs.Text.{costs_text};

    ghost output = { λ a. Some (costs_text a.0) };

    fn fmt<W: fmt::Write>(&self, f: &mut fmt::Formatter<W>) -> fmt::Result {
        let dues = self.0.dues;
        let revenues = self.0.revenues;
        let sum = self.0.costs();
        write!(f, "dues {dues} revenues {revenues} sum {sum}")
    }
}

/// As two lines, the second without a line feed: the terms on either side, each with its sum.
impl fmt::Display for AccountTotals {
    ghost use Rattle.statement.specs.Text.{account_text};

    ghost output = { λ a. Some (account_text a) };

    fn fmt<W: fmt::Write>(&self, f: &mut fmt::Formatter<W>) -> fmt::Result {
        let licensees = Licensees(*self);
        let heads = Heads(*self);
        let sum = self.covered();
        let costs = Costs(*self);
        write!(f, "account {licensees} {heads} sum {sum}\naccount {costs}")
    }
}
