//! The sums over the answers to a list of calls.
ghost use Rattle.std.specs.Prelude.{◌≡◌, ℕ, ◌+◌, ◌*◌, ◌^◌, ◌<◌, ◌≤◌, length, slice_index, slice_index_or};
ghost use Rattle.metering.specs.Limits.{licensee_limit};
ghost use Rattle.methodology.specs.Limits.{revenue_limit};
ghost use Rattle.metering.specs.Limits.{place_limit};
ghost use Rattle.settlement.specs.Law.{bill_of, bills_on};
ghost use Rattle.statement.specs.Tallies.{shares_allowed, nothing, no_tally, plus, more_at, with_year, with_dues, with_sheet, with_payment, with_accepted, with_metered, taken, tallied};
ghost use Rattle.statement.specs.Bounds.{call_limit, turn, Small, Within};

use crate::total::Total;
use accounts::{Billed, Sheet};
use arith::months::month_share;
use history::{Answer, Call};
use metering::{PLACE_COUNT, index_of};
use methodology::Shape;
use rates::REVENUES;
use std::array;
use tariffs::Row;

/// What came to a place.
#[derive(Clone, Copy)]
pub struct PlaceTally {
    /// Grains that its terms gave.
    pub given: u128,
    /// Cents on its released orders.
    pub released: u128,
}

/// The sums over some calls' answers.
#[derive(Clone, Copy)]
pub struct Tally {
    /// Cents billed over the closed months.
    pub bills: u128,
    /// Their loss margins, grains.
    pub margins: i128,
    /// Dues of the open month, grains.
    pub unsettled: u128,
    /// Dues of the closed months, grains.
    pub dues: u128,
    /// Cents that the yearly revenues allowed in the closed months.
    pub shares: u128,
    /// The yearly revenues in force, cents.
    pub yearly: [u64; REVENUES],
    /// By place, place 1 first.
    pub places: [PlaceTally; PLACE_COUNT],
}

/// The cents of a licensee's line, if it has one.
fn bill_of(line: &Option<Billed>) -> u64
    ensures { result ≡ bill_of line.now }
{
    line.map_or(0, |billed| billed.bill)
}

/// The cents that a sheet bills.
fn bills_on(sheet: &Sheet) -> Total
    ensures { result.sum ≡ bills_on sheet.now }
{
    Total::of(&sheet.licensees, bill_of)
}

/// The cents that the yearly revenues of a market allow in a month.
fn shares_of(yearly: &[u64; REVENUES], shape: Shape, month: u8) -> Total
    ensures { result.sum ≡ shares_allowed shape.revenues yearly.now month }
{
    Total::of(
        &yearly[..shape.revenues],
        |amount| month_share(*amount, month),
    )
}

impl PlaceTally {
    /// So many grains and cents more.
    fn add(&mut self, given: u64, released: u64)
        requires { Small (2 ^ 127) self.old }
        ensures { self.new ≡ plus self.old given released }
    {
        self.given += u128::from(given);
        self.released += u128::from(released);
    }
}

/// So many grains and cents more at a place, where there is such a place.
fn more_at(places: &mut [PlaceTally; PLACE_COUNT], place: u8, given: u64, released: u64)
    requires { (k : ℕ) → k < place_limit → Small (2 ^ 127) (slice_index_or places.old k no_tally) }
    ensures value { places.new ≡ more_at places.old place given released }

    // What `take` adds is of 64 bits.
    ensures short { given < 2 ^ 64 }
    ensures brief { released < 2 ^ 64 }
{
    if let Some(index) = index_of(usize::from(place), PLACE_COUNT) {
        places[index].add(given, released);
    }
}

impl Tally {
    /// Before any call.
    fn nothing() -> Tally
        ensures { result ≡ nothing }
    {
        Tally {
            bills: 0,
            margins: 0,
            unsettled: 0,
            dues: 0,
            shares: 0,
            yearly: [0; REVENUES],
            places: [PlaceTally {
                given: 0,
                released: 0,
            }; PLACE_COUNT],
        }
    }

    /// A year was accepted: these are the revenues in force.
    fn file(&mut self, row: &Row)
        ensures { self.new ≡ with_year row.now self.old }
    {
        self.yearly = array::from_fn(|j| row.figure(j));
    }

    /// A month was closed on this sheet.
    fn close(&mut self, shape: Shape, sheet: &Sheet)
        requires { Within (2 ^ 100) self.old }
        ensures value { self.new ≡ with_sheet shape.revenues sheet.now self.old }
        ensures within { (n : ℕ) → Within n self.old → Within (n + turn) self.new }
    {
        self.bills += bills_on(sheet).sum;
        self.margins += i128::from(sheet.margin);
        self.dues += self.unsettled;
        self.unsettled = 0;
        self.shares += shares_of(&self.yearly, shape, sheet.month).sum;
    }

    /// Adds what is answered to a call.
    fn take(&mut self, shape: Shape, call: &Call, answer: &Answer)
        requires { Within (2 ^ 100) self.old }
        ensures value { self.new ≡ taken shape.revenues call.now answer.now self.old }
        ensures within { (n : ℕ) → Within n self.old → Within (n + turn) self.new }
    {
        match (*answer, call) {
            (Answer::Accepted, Call::Year(row)) => self.file(row),
            (Answer::Metered(dues), Call::Meter(reading)) => {
                more_at(&mut self.places, reading.number, dues, 0);
                self.unsettled += u128::from(dues);
            }
            (Answer::Closed(sheet), _) => self.close(shape, &sheet),
            (Answer::Paid(place, cents), _) => more_at(&mut self.places, place, 0, cents),
            _ => {}
        }
    }

    /// The sums over a list of calls, of a market of this shape.
    pub(crate) fn of(shape: Shape, calls: &[Call], answers: &[Answer]) -> Tally
        requires same { length answers.now ≡ length calls.now }
        requires long { length calls.now ≤ call_limit }
        ensures value { result ≡ tallied shape.revenues calls.now answers.now nothing }
        ensures within { Within (call_limit * turn) result }
    {
        let mut tally = Tally::nothing();
        for (call, answer) in calls.iter().zip(answers) {
            tally.take(shape, call, answer);
        }
        tally
    }
}
