//! A house, and the eight calls that may be made of it.
ghost use Rattle.std.specs.Prelude.{◌≤◌, length};
ghost use Rattle.metering.specs.Limits.{place_limit};
ghost use Rattle.methodology.specs.Heads.{heads_of};
ghost use Rattle.methodology.specs.Limits.{head_limit};

use accounts::{Books, Month, Sheet};
use agreements::Dues;
use banks::Bank;
use closing::Case;
use ledger::{Half, Ledger, Refusal, Stage};
use metering::{Kind, Reading};
use methodology::Methodology;
use orders::{Paid, PayOrder, Returned, Till};
use rates::{Rates, Revenues};
use tariffs::{Filing, Row, file_year, publish};

/// Settles the months of a market with a single buyer. A call answers at once, and one that is refused changes nothing.
#[derive(Drop)]
pub struct House<B: Bank, M: Methodology> {
    /// The stations' agreements.
    pub(crate) bank: B,
    /// The market's own rules.
    pub(crate) methodology: M,
    /// All that is kept in plain numbers.
    pub(crate) ledger: Ledger,
    ghost few: { length (B.Bank.row bank) ≤ place_limit },
    ghost headed: { heads_of M.Methodology.shape ≤ head_limit },
}

impl<B: Bank, M: Methodology> House<B, M> {
    ghost use Rattle.std.specs.Prelude.{◌≡◌};
    ghost use Rattle.ledger.specs.Calls.{NewHouse, Unrated};
    ghost use Rattle.house.specs.Shown.{shows, MadeOver, EveryRunOver};
    ghost use Rattle.house.specs.Calls.{Year, Tariff, Meter, Deliver, Close, Draw, Release, Hold};

    /// A house that waits for its first year to be filed. No money has moved in it, and the agreements stand as the bank came.
    /// Its pay orders bear the serial number, which should be one that no other house has.
    pub fn new(bank: B, methodology: M, serial: u64) -> House<B, M>
        ensures made { NewHouse serial (shows result) }
        ensures unrated { Unrated (shows result) }
        ensures over { MadeOver bank methodology result }
        ensures law { EveryRunOver B.Bank M.Methodology bank methodology serial }
    {
        let ledger = Ledger {
            stage: Stage::BeforeYear,
            revenues: Revenues::none(),
            rates: Rates::unset(M::shape()),
            books: Books::new(),
            month: Month::open(),
            till: Till::new(serial),
        };
        House {
            bank,
            methodology,
            ledger,
        }
    }

    /// What the house keeps, to be read.
    pub fn ledger(&self) -> &Ledger
        ensures { result.now ≡ self.now.ledger }
    {
        &self.ledger
    }

    /// Files the allowed revenues of a year, in cents. Refused with 12 where another call is due, and with 13 where their count
    /// or one of them does not fit.
    pub fn year(&mut self, filed: &Row) -> Result<(), Refusal>
        ensures { Year self.old filed.now result self.new }
    {
        if self.ledger.stage != Stage::BeforeYear {
            return Err(Refusal::NotNow);
        }
        let revenues = file_year(M::shape(), filed)?;
        self.ledger.revenues = revenues;
        self.ledger.stage = Stage::BeforeTariff(Half::First);
        Ok(())
    }

    /// Publishes a tariff, and opens the first month of its half-year. Refused with 12 where another call is due, with 14 where
    /// a figure does not fit, and with 15 where a rate is out of its range.
    pub fn tariff(&mut self, filing: &Filing) -> Result<(), Refusal>
        ensures { Tariff self.old filing.now result self.new }
    {
        let Stage::BeforeTariff(half) = self.ledger.stage else {
            return Err(Refusal::NotNow);
        };
        let earlier = self.ledger.books.earlier();
        let rates = publish(M::shape(), filing, &earlier)?;
        self.ledger.rates = rates;
        self.ledger.books.begin_period();
        self.ledger.stage = half.first_month();
        Ok(())
    }

    /// Takes a station's reading, and answers what the station earns by it, in grains: its agreement moves on, the month counts
    /// the reading, and the grains stand at the place. Refused with 6 for a licensee's reading, with 7 where no month is open,
    /// with 8 where the bank has no such place, with 9 where it was read this month, with 10 for a fault of its agreement, and
    /// with 11 where its money would pass the limit.
    pub fn meter(&mut self, reading: &Reading) -> Result<u64, Refusal>
        ensures { Meter self.old reading.now result self.new }
    {
        if reading.kind != Kind::Generator {
            return Err(Refusal::WrongKind);
        }
        let Stage::InMonth(_) = self.ledger.stage else {
            return Err(Refusal::NoMonth);
        };
        let place = reading.number;
        if place > self.bank.places() {
            return Err(Refusal::NoPlace);
        }
        if self.ledger.month.is_read(place) {
            return Err(Refusal::Again);
        }
        let mut dues = Dues::empty();
        self.bank.ask_at(place, reading, &mut dues)?;
        let worth = dues.capacity_due() + dues.block_sum();
        self.ledger.till.credit(place, worth)?;
        self.bank.book_at(place, reading, &mut dues).unwrap();
        self.ledger
            .month
            .add_reading(&self.methodology, reading, &dues)
            .unwrap();
        // Fits: capacity due and block sum are at most 10^17 each.
        Ok(worth as u64)
    }

    /// Takes a licensee's reading: what it took from the market this month. Refused with 6 for a station's reading, with 7 where
    /// no month is open, and with 9 where the licensee delivered this month.
    pub fn deliver(&mut self, reading: &Reading) -> Result<(), Refusal>
        ensures { Deliver self.old reading.now result self.new }
    {
        if reading.kind != Kind::Licensee {
            return Err(Refusal::WrongKind);
        }
        let Stage::InMonth(_) = self.ledger.stage else {
            return Err(Refusal::NoMonth);
        };
        if self.ledger.month.has_delivered(reading.number) {
            return Err(Refusal::Again);
        }
        self.ledger
            .month
            .add_delivery(&self.methodology, reading)
            .unwrap();
        Ok(())
    }

    /// Closes the month and fills in the caller's sheet; a refusal leaves it. The caller states how many readings and
    /// deliveries the month must have. Refused with 7 where no month is open, with 16 where a count is not the month's, and
    /// with 17 to 20 where a head has no quantity, no fitting supply, a rate over its limit or a balance past it.
    pub fn close(
        &mut self,
        readings: usize,
        deliveries: usize,
        sheet: &mut Sheet,
    ) -> Result<(), Refusal>
        ensures { Close self.old readings deliveries sheet.old result self.new sheet.new }
    {
        let Stage::InMonth(number) = self.ledger.stage else {
            return Err(Refusal::NoMonth);
        };
        let case = Case {
            methodology: &self.methodology,
            books: &self.ledger.books,
            rates: &self.ledger.rates,
            revenues: &self.ledger.revenues,
            number,
            month: &self.ledger.month,
        };
        self.ledger.books = case.close(readings, deliveries, sheet)?;
        self.ledger.month = Month::open();
        self.ledger.stage = Stage::after_month(number);
        Ok(())
    }

    /// Draws an order on all whole cents that stand at a place. Refused with 8 where the bank has no such place, and with 21
    /// where less than a cent stands there.
    pub fn draw(&mut self, place: u8) -> Result<PayOrder, Refusal>
        ensures { Draw self.old place result self.new }
    {
        if !(1..=self.bank.places()).contains(&place) {
            return Err(Refusal::NoPlace);
        }
        Ok(self.ledger.till.draw(place)?)
    }

    /// Pays an order. One that is not the house's own comes back, which is refusal 22.
    pub fn release(&mut self, order: PayOrder) -> Result<Paid, Returned>
        ensures { Release self.old order result self.new }
    {
        self.ledger.till.release(order)
    }

    /// Puts an order's cents back to the money that stands at its place. One that is not the house's own comes back, which is
    /// refusal 22.
    pub fn hold(&mut self, order: PayOrder) -> Result<(), Returned>
        ensures { Hold self.old order result self.new }
    {
        self.ledger.till.hold(order)
    }
}
