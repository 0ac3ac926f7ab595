//! The trait of banks.
ghost use Rattle.std.specs.Prelude.{◌≡◌, ℕ, ◌≤◌, List, length};
ghost use Rattle.metering.specs.declared.reading.Reading.{Reading};
ghost use Rattle.agreements.specs.Meaning.{Meaning};
ghost use Rattle.metering.specs.Limits.{place_limit};
ghost use Rattle.banks.specs.Rows.{at_place, outcome_at, written_at, Booked, LawfulAt};

use crate::refusal::BankRefusal;
use agreements::Dues;
use metering::Reading;

/// The agreements of a market. A place is a number from 1 to 32 by which a generator is known, and a bank says which
/// agreement stands at each. It answers as the agreement there would, into the caller's table, which a refusal leaves as it
/// was. It refuses a place that it does not have (8) and a reading that the agreement there does not admit (10).
pub trait Bank {
    /// What the agreement at each place means, place 1 first.
    ghost row: { Self → List Meaning };

    /// How many places it has.
    fn places(&self) -> u8
        ensures { result ≡ length (row self.now) };

    /// Asks the agreement at the place.
    fn ask_at(&self, place: u8, reading: &Reading, table: &mut Dues) -> Result<(), BankRefusal>
        ensures answered { result ≡ outcome_at (at_place (row self.now) place) reading.now }
        ensures wrote { table.new
            ≡ written_at (at_place (row self.now) place) reading.now table.old };

    /// Books at the place: it gives the same answer, and moves the standing of the agreement there, and no other.
    fn book_at(&mut self, place: u8, reading: &Reading, table: &mut Dues) -> Result<(), BankRefusal>
        ensures answered { result ≡ outcome_at (at_place (row self.old) place) reading.now }
        ensures wrote { table.new
            ≡ written_at (at_place (row self.old) place) reading.now table.old }
        ensures moves { Booked (row self.old) place reading.now (row self.new) };

    /// It has 32 places at most.
    ghost few: { (b : Self) → length (row b) ≤ place_limit };

    /// Each agreement keeps what every agreement does.
    ghost lawful: { (b : Self) (k : ℕ) (r : Reading) → LawfulAt (at_place (row b) k) r };
}
