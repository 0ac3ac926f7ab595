//! The retainer: a fee for each of so many readings, whatever they show.
ghost use Rattle.std.specs.Prelude.{◌≤◌};
ghost use Rattle.std.proofs.Common.{rules, arith};
ghost use Rattle.agreements.specs.Limits.{due_limit};

use agreements::limits::DUE_LIMIT;
use agreements::{Agreement, Cause, Dues, Fault, OverLimit};
use metering::Reading;

/// Its standing is the readings that are left; then it admits none.
#[derive(Drop)]
pub struct Retainer {
    fee: u64,
    left: u64,
    ghost limits: { fee ≤ due_limit },
}

impl Retainer {
    ghost use Rattle.strangers.specs.Retainers.{MakesRetainer};

    /// A retainer of this fee in grains, for so many readings.
    /// It refuses a fee over the ceiling of dues (2).
    pub fn new(fee: u64, readings: u64) -> Result<Retainer, OverLimit>
        ensures { MakesRetainer fee readings result }
    {
        if fee > DUE_LIMIT {
            return Err(OverLimit);
        }
        Ok(Retainer {
            fee,
            left: readings,
        })
    }
}

impl Agreement for Retainer {
    ghost use Rattle.strangers.specs.Retainers.{meaning_of_retainer};

    ghost meaning = { meaning_of_retainer };

    ghost lawful = { first_of (Prim.search rules, Prim.grind (arith, Self.row.coded.inj)) };

    fn layer(&self) -> u8 {
        0
    }

    fn ask(&self, _reading: &Reading, table: &mut Dues) -> Result<(), Fault> {
        if self.left == 0 {
            return Err(Fault {
                cause: Cause::Contract,
                layer: self.layer(),
            });
        }
        let mut dues = Dues::empty();
        dues.capacity = self.fee;
        *table = dues;
        Ok(())
    }

    fn book(&mut self, reading: &Reading, table: &mut Dues) -> Result<(), Fault> {
        self.ask(reading, table)?;
        self.left -= 1;
        Ok(())
    }
}
