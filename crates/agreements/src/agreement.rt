//! The trait of agreements.
ghost use Rattle.std.specs.Prelude.{◌≡◌};
ghost use Rattle.metering.specs.declared.reading.Reading.{Reading};
ghost use Rattle.agreements.specs.Meaning.{Meaning, Lawful, answer, outcome, written, moved};

use crate::dues::Dues;
use crate::fault::Fault;
use metering::Reading;

/// An agreement prices readings. It may keep a standing, numbers that booking moves and asking does not, as what is left of
/// a quota. Dues go into the caller's table, which a fault leaves as it was.
pub trait Agreement {
    /// Its layer number, its standing and its terms: all that generic code knows of it.
    ghost meaning: { Self → Meaning };

    /// Its layer number: 0 for an agreement that stands on no other, one more for each layer above.
    fn layer(&self) -> u8
        ensures { result ≡ (meaning self.now).layer };

    /// Writes the dues of the reading into the table, or answers the fault and leaves the table.
    fn ask(&self, reading: &Reading, table: &mut Dues) -> Result<(), Fault>
        ensures answered { result ≡ outcome (answer (meaning self.now) reading.now) }
        ensures wrote { table.new ≡ written (answer (meaning self.now) reading.now) table.old };

    /// The same, and moves the standing, except at a fault.
    fn book(&mut self, reading: &Reading, table: &mut Dues) -> Result<(), Fault>
        ensures answered { result ≡ outcome (answer (meaning self.old) reading.now) }
        ensures wrote { table.new ≡ written (answer (meaning self.old) reading.now) table.old }
        ensures moves { meaning self.new ≡ moved (meaning self.old) reading.now };

    /// The layer number keeps its limit, and what it gives the ceiling, at every standing that it can come to.
    ghost lawful: { (a : Self) (r : Reading) → Lawful (meaning a) r };
}
