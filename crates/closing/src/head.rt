//! A head of a case: its tests, and what it spreads over its quantity.
ghost use Rattle.std.specs.Prelude.{◌≡◌, ℕ, ◌*◌, ◌/◌, ◌%◌, ◌<◌, ◌≤◌, true, false, nat_le};
ghost use Rattle.metering.specs.Limits.{reading_limit};
ghost use Rattle.methodology.specs.Limits.{head_limit, revenue_limit, supply_limit};
ghost use Rattle.rates.specs.Heads.{rates_at};
ghost use Rattle.rates.specs.Limits.{yearly_limit};
ghost use Rattle.accounts.specs.Limits.{carry_limit};
ghost use Rattle.accounts.specs.Months.{taken};
ghost use Rattle.settlement.specs.Closing.{heads, limit_of, old, share_of, share, pool, sent};
ghost use Rattle.settlement.specs.Closing.{quantity, supply, interval_spread, spread};
ghost use Rattle.settlement.specs.Closing.{interval_margin, margin, Empty, Unsupplied};
ghost use Rattle.closing.specs.Cases.{shows, Told};
ghost use Rattle.closing.specs.Limits.{pool_limit};

use crate::case::Case;
use accounts::{Account, Delivery};
use arith::{CENT, month_share, split};
use metering::index_of;
use methodology::Methodology;
use rates::{HeadRates, Revenues};

/// A head by its index k in every table by head: generation, head 1, has index 0, and the market's revenues and intervals
/// have those after it.
#[derive(Drop)]
pub struct CaseHead<'a, M: Methodology> {
    pub case: &'a Case<'a, M>,
    pub k: usize,
    ghost counted: { k < heads (shows case.now) },
    ghost placed: { k < head_limit },
}

impl<M: Methodology> CaseHead<'_, M> {
    ghost use Rattle.closing.specs.Findings.{Modest};
    ghost use Rattle.closing.specs.Heads.{at_head, WellSupplied, Shareless};

    /// Whether it is billed by demand.
    pub fn is_demand(&self) -> bool
        ensures { result ≡ nat_le self.now.k M.shape.revenues }
    {
        M::shape().head(self.k + 1).is_demand()
    }

    /// Its rate limit.
    pub fn rate_limit(&self) -> u64
        ensures { result ≡ limit_of M.shape.revenues self.now.k }
    {
        M::shape().head(self.k + 1).rate_limit()
    }

    /// Its account as it stood.
    pub fn account(&self) -> Account
        ensures { result ≡ at_head old self.now }
    {
        self.case.account(self.k)
    }

    /// Its rates in force.
    pub fn rates(&self) -> HeadRates
        ensures { result ≡ rates_at self.now.case.now.rates.now self.now.k }
    {
        self.case.rates.heads[self.k]
    }

    /// The energy sent in, kWh, of an interval.
    #[tactic(auto, using(crate::proofs::Bounds::sent_le))]
    pub fn sent(&self) -> u64
        ensures value { result ≡ at_head sent self.now }
        ensures most { result ≤ supply_limit }
    {
        self.case.month.sent[self.k]
    }

    /// A head's quantity: what the licensees took, added up.
    #[tactic(auto, unfolding(settlement::specs::Closing::quantity))]
    pub fn quantity(&self) -> u64
        ensures value { result ≡ at_head quantity self.now }
        ensures most { result ≤ carry_limit }
    {
        let mut sum = 0;
        for licensee in &self.case.month.licensees {
            sum += taken_by(licensee, self.k);
        }
        sum
    }

    /// Whether an interval's energy sent in is under what was delivered, or over twice that.
    pub fn is_unsupplied(&self) -> bool
        ensures misfit { result ≡ true → at_head Unsupplied self.now }
        ensures fitting { result ≡ false → at_head Unsupplied self.now → ⊥ }
    {
        let delivered = self.quantity();
        let sent = self.sent();
        !self.is_demand() && (sent < delivered || sent > 2 * delivered)
    }

    /// What a head spreads, and its margin; one that is billed by demand spreads its whole pool.
    pub fn spread(&self) -> Spread
        requires some { at_head Empty self.now → ⊥ }
        requires supplied { at_head Unsupplied self.now → ⊥ }
        ensures value { result.amount ≡ at_head spread self.now }
        ensures margin { result.margin ≡ at_head margin self.now }
        ensures modest { at_head Modest self.now result.margin }
    {
        if self.is_demand() {
            return Spread {
                amount: self.pool(),
                margin: 0,
            };
        }
        self.interval_spread()
    }

    /// What an interval spreads, and its margin: its unit cost for the energy sent in that is not allowed supply.
    fn interval_spread(&self) -> Spread
        requires { at_head WellSupplied self.now }
        ensures value { result.amount ≡ at_head interval_spread self.now }
        ensures margin { result.margin ≡ at_head interval_margin self.now }
        ensures modest { at_head Modest self.now result.margin }
    {
        let sent = self.sent();
        let (unit, rest) = divided(self.pool(), sent);
        let billed = unit * self.supply();
        Spread {
            amount: billed + rest,
            // Both fit: one is at most the pool, the other at most twice that.
            margin: (unit * sent) as i64 - billed as i64,
        }
    }

    /// The supply of an interval that its price may cover, kWh.
    fn supply(&self) -> u64
        requires { at_head WellSupplied self.now }
        ensures value { result ≡ at_head supply self.now }
        ensures most { result ≤ 2 * at_head sent self.now }
    {
        self.case
            .methodology
            .allowed_supply(self.sent(), self.quantity(), self.rates().factor)
    }

    /// A head's pool, in grains: the month's dues, the share of the year and the carry.
    fn pool(&self) -> u64
        ensures value { result ≡ at_head pool self.now }
        ensures most { result ≤ pool_limit }
        ensures shareless { at_head Shareless self.now result }
    {
        self.case.month.income[self.k] + CENT * self.share() + self.account().carry
    }

    /// The head's share of the year, in cents.
    #[tactic(auto, unfolding(settlement::specs::Closing::share))]
    fn share(&self) -> u64
        ensures value { result ≡ at_head share self.now }
        ensures most { result ≤ yearly_limit }
    {
        share_of(
            self.case.revenues,
            M::shape().revenues,
            self.case.number,
            self.k,
        )
    }
}

/// What a head spreads, and its margin, in grains.
#[derive(Clone, Copy)]
pub struct Spread {
    pub amount: u64,
    pub margin: i64,
}

/// The number of the first head that a test is true of.
pub fn first_head<F: Fn(usize) -> bool>(heads: usize, test: F) -> Option<usize>
    requires { (k : ℕ) → k < heads → F.pre test k }
    ensures { Told (F.post test) heads result }
{
    (0..heads)
        .find(
            |k|
                requires { F.pre test k.now }
            { test(*k) },
        )
        .map(|k| k + 1)
}

/// An amount over a quantity that is there, and what is left over.
pub fn divided(amount: u64, quantity: u64) -> (u64, u64)
    requires { 0 < quantity }
    ensures rate { result.0 ≡ amount / quantity }
    ensures rest { result.1 ≡ amount % quantity }
{
    split(amount, quantity).unwrap()
}

/// What a licensee took under a head.
fn taken_by(licensee: &Option<Delivery>, k: usize) -> u64
    requires { k < head_limit }
    ensures value { result ≡ taken licensee.now k }
    ensures most { result ≤ reading_limit }
{
    licensee.map_or(0, |delivery| delivery.taken[k])
}

/// A head's share of the year, in cents; only a revenue has one.
fn share_of(revenues: &Revenues, count: usize, number: u8, k: usize) -> u64
    requires { count ≤ revenue_limit }
    ensures value { result ≡ share_of count revenues.now.yearly number k }
    ensures most { result ≤ yearly_limit }
{
    index_of(k, count).map_or(0, |j| month_share(revenues.yearly[j], number))
}
