//! A bank that counts another's places from the last to the first.
ghost use Rattle.std.specs.Prelude.{◌≡◌, ◌+◌, ◌-◌, reverse, length};
ghost use Rattle.std.proofs.Common.{arith};
ghost use Rattle.std.proofs.lemmas.List.{length-reverse};
ghost use Rattle.strangers.specs.lemmas.Turning.{lawful_turned};

use agreements::Dues;
use banks::{Bank, BankRefusal};
use metering::Reading;

/// A bank over another, whose last place is its first.
#[derive(Drop)]
pub struct Reversed<B> {
    bank: B,
}

impl<B> Reversed<B> {
    /// The bank, turned round.
    pub fn new(bank: B) -> Reversed<B>
        ensures { result.bank ≡ bank }
    {
        Reversed { bank }
    }
}

impl<B: Bank> Reversed<B> {
    /// The number that the bank itself gives a place; 0, which the bank refuses, past the last one.
    fn turned(&self, place: u8) -> u8
        ensures { result ≡ length (B.Bank.row self.now.bank) + 1 - place }
    {
        (self.bank.places() + 1).saturating_sub(place)
    }
}

impl<B: Bank> Bank for Reversed<B> {
    ghost row = { λ s. reverse (B.Bank.row s.bank) };

    ghost few = { λ b. omega (arith, length-reverse (B.Bank.row b.bank), B.Bank.few b.bank) };

    ghost lawful = { λ b k r.
        lawful_turned (B.Bank.row b.bank) k r (λ j. B.Bank.lawful b.bank j r) };

    fn places(&self) -> u8 {
        self.bank.places()
    }

    fn ask_at(&self, place: u8, reading: &Reading, table: &mut Dues) -> Result<(), BankRefusal> {
        let there = self.turned(place);
        self.bank.ask_at(there, reading, table)?;
        Ok(())
    }

    fn book_at(
        &mut self,
        place: u8,
        reading: &Reading,
        table: &mut Dues,
    ) -> Result<(), BankRefusal> {
        let there = self.turned(place);
        self.bank.book_at(there, reading, table)?;
        Ok(())
    }
}
