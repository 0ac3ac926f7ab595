//! The open month: what its readings come to so far.
ghost use Rattle.std.specs.Prelude.{◌≡◌, ◌*◌, ◌≤◌, ◌&&◌, false, length, nat_le};
ghost use Rattle.metering.specs.Limits.{block_count, place_limit, licensee_limit, reading_limit};
ghost use Rattle.methodology.specs.Limits.{head_limit};
ghost use Rattle.agreements.specs.Limits.{due_limit};
ghost use Rattle.agreements.specs.Dues.{capacity_due, block_sum};
ghost use Rattle.accounts.specs.Rules.{rules_by};
ghost use Rattle.accounts.specs.Counts.{count_true};
ghost use Rattle.accounts.specs.Tables.{TableWithin, summed};

use crate::delivery::Delivery;
use crate::tables::{added, by_head, widened};
use agreements::Dues;
use agreements::limits::DUE_LIMIT;
use metering::{LICENSEE_COUNT, LICENSEES, PLACE_COUNT, Reading, index_of};
use methodology::Methodology;
use rates::HEADS;

/// The sums of a month, and which readings they are of. Tables by head have head 1 first, lists place 1 or licensee 1.
#[derive(Clone, Copy)]
pub struct Month {
    /// Dues, in grains: for capacity at generation, for blocks at their interval, nothing at the revenues.
    pub income: [u64; HEADS],
    /// Energy sent in, kWh, at the intervals.
    pub sent: [u64; HEADS],
    /// The places that were read.
    pub read: [bool; PLACE_COUNT],
    /// The licensees that delivered, with what each took.
    pub licensees: [Option<Delivery>; LICENSEE_COUNT],
    ghost headed: { length income ≡ head_limit },
    ghost metered: { length sent ≡ head_limit },
    ghost full: { length read ≡ place_limit },
    ghost listed: { length licensees ≡ licensee_limit },
    ghost earned: { TableWithin (count_true read * due_limit) income },
    ghost whole: { summed income ≤ count_true read * (2 * due_limit) },
    ghost supplied: { TableWithin (count_true read * reading_limit) sent },
}

impl Month {
    ghost use Rattle.accounts.specs.Months.{Opened, readings_in, deliveries_in, read_at};
    ghost use Rattle.accounts.specs.Months.{delivered_at, IncomeWith, SentWith, Generated};
    ghost use Rattle.accounts.specs.Months.{Delivered, Add, AddDelivery};

    /// A month without readings.
    pub fn open() -> Month
        ensures { Opened result }
    {
        Month {
            income: [0; HEADS],
            sent: [0; HEADS],
            read: [false; PLACE_COUNT],
            licensees: [None; LICENSEE_COUNT],
        }
    }

    /// How many places were read.
    #[tactic(auto, unfolding(crate::specs::Counts::count_true))]
    pub fn readings(&self) -> usize
        ensures value { result ≡ readings_in self.now }
        ensures bound { result ≤ place_limit }
    {
        self.read.iter().filter(|read| **read).count()
    }

    /// How many licensees delivered.
    #[tactic(auto, unfolding(crate::specs::Counts::count_some))]
    pub fn deliveries(&self) -> usize
        ensures value { result ≡ deliveries_in self.now }
        ensures bound { result ≤ licensee_limit }
    {
        self.licensees
            .iter()
            .filter(|licensee| licensee.is_some())
            .count()
    }

    /// Whether a place was read. Places count from 1; one that no market has was not.
    pub fn is_read(&self, place: u8) -> bool
        ensures { result ≡ (nat_le 1 place && read_at self.now place) }
    {
        index_of(usize::from(place), PLACE_COUNT).is_some_and(|i| self.read[i])
    }

    /// Whether a licensee delivered. Licensees count from 1; one that no market has did not.
    pub fn has_delivered(&self, licensee: u8) -> bool
        ensures { result ≡ (nat_le 1 licensee && delivered_at self.now licensee) }
    {
        index_of(usize::from(licensee), LICENSEE_COUNT)
            .and_then(|i| self.licensees.get(i))
            .is_some_and(|delivery| delivery.is_some())
    }

    /// Adds a generator's reading with its dues, or leaves the month as it was.
    pub fn add_reading<M: Methodology>(
        &mut self,
        m: &M,
        reading: &Reading,
        dues: &Dues,
    ) -> Result<(), Unadded>
        ensures { Add (rules_by M.Methodology m.now) self.old reading.now dues.now result self.new }
    {
        if self.is_read(reading.number) {
            return Err(Unadded::Again);
        }
        let limit = u128::from(DUE_LIMIT);
        if dues.capacity_due() > limit || dues.block_sum() > limit {
            return Err(Unadded::Ceiling);
        }
        *self = self.with_reading(m, reading, dues);
        Ok(())
    }

    /// Adds a licensee's reading, or leaves the month as it was.
    pub fn add_delivery<M: Methodology>(
        &mut self,
        m: &M,
        reading: &Reading,
    ) -> Result<(), Undelivered>
        ensures { AddDelivery (rules_by M.Methodology m.now) self.old reading.now result self.new }
    {
        if reading.number > LICENSEES {
            return Err(Undelivered::NoLicensee);
        }
        if self.has_delivered(reading.number) {
            return Err(Undelivered::Again);
        }
        *self = self.with_delivery(m, reading);
        Ok(())
    }

    /// The month with a generator's reading.
    fn with_reading<M: Methodology>(&self, m: &M, reading: &Reading, dues: &Dues) -> Month
        requires unread { read_at self.now reading.now.number ≡ false }
        requires moderate { (capacity_due dues.now ≤ due_limit) × (block_sum dues.now ≤ due_limit) }
        ensures { Generated (rules_by M.Methodology m.now) self.now reading.now dues.now result }
    {
        let mut read = self.read;
        read[usize::from(reading.number) - 1] = true;
        Month {
            income: self.income_with(m, dues),
            sent: self.sent_with(m, reading),
            read,
            licensees: self.licensees,
        }
    }

    /// Its income by head, and the dues on top of it.
    fn income_with<M: Methodology>(&self, m: &M, dues: &Dues) -> [u64; HEADS]
        requires { (capacity_due dues.now ≤ due_limit) × (block_sum dues.now ≤ due_limit) }
        ensures value { IncomeWith (rules_by M.Methodology m.now) self.now dues.now result }
        ensures full { length dues.now.blocks ≡ block_count }
    {
        added(&self.income, &by_head(m, dues.capacity, 0, &dues.blocks))
    }

    /// Its energy sent in by head, and the reading's on top of it.
    fn sent_with<M: Methodology>(&self, m: &M, reading: &Reading) -> [u64; HEADS]
        ensures { SentWith (rules_by M.Methodology m.now) self.now reading.now result }
    {
        added(&self.sent, &by_head(m, 0, 0, &widened(&reading.blocks)))
    }

    /// The month with a licensee's reading.
    fn with_delivery<M: Methodology>(&self, m: &M, reading: &Reading) -> Month
        requires counted { reading.now.number ≤ licensee_limit }
        requires undelivered { delivered_at self.now reading.now.number ≡ false }
        ensures { Delivered (rules_by M.Methodology m.now) self.now reading.now result }
    {
        let demand = u64::from(reading.demand);
        let taken = by_head(m, demand, demand, &widened(&reading.blocks));
        let mut licensees = self.licensees;
        licensees[usize::from(reading.number) - 1] = Some(Delivery { taken });
        Month {
            income: self.income,
            sent: self.sent,
            read: self.read,
            licensees,
        }
    }
}

/// Why a generator's reading is not added to a month.
#[derive(Clone, Copy, PartialEq, Eq, Debug)]
pub enum Unadded {
    /// The place was read already.
    Again,
    /// The capacity due or the block sum is over the ceiling.
    Ceiling,
}

/// Why a licensee's reading is not added to a month.
#[derive(Clone, Copy, PartialEq, Eq, Debug)]
pub enum Undelivered {
    /// There is no such licensee.
    NoLicensee,
    /// The licensee delivered already.
    Again,
}
