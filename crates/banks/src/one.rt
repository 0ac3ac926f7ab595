//! The smallest bank: a single agreement.
ghost use Rattle.std.specs.Prelude.{◌≡◌, ◌≢◌, [], ◌∷◌, MatchResult};
ghost use Rattle.std.proofs.Common.{rules};

use crate::bank::Bank;
use crate::refusal::BankRefusal;
use agreements::{Agreement, Dues};
use metering::Reading;

/// A bank that has the agreement at place 1, and no other place.
#[derive(Drop)]
pub struct One<A> {
    agreement: A,
}

impl<A> One<A> {
    /// The bank of this agreement.
    pub fn new(agreement: A) -> One<A>
        ensures { result.agreement ≡ agreement }
    {
        One { agreement }
    }
}

/// Refuses any place but 1.
fn only_place(place: u8) -> Result<(), BankRefusal>
    ensures { MatchResult result (λ _. place ≡ 1) (λ e. (place ≢ 1) × (e ≡ BankRefusal.NoPlace)) }
{
    if place == 1 {
        Ok(())
    } else {
        Err(BankRefusal::NoPlace)
    }
}

impl<A: Agreement> Bank for One<A> {
    ghost row = { λ s. A.Agreement.meaning s.agreement ∷ [] };

    ghost few = { Prim.search rules };

    ghost lawful = { Prim.search rules };

    fn places(&self) -> u8 {
        1
    }

    fn ask_at(&self, place: u8, reading: &Reading, table: &mut Dues) -> Result<(), BankRefusal> {
        only_place(place)?;
        self.agreement.ask(reading, table)?;
        Ok(())
    }

    fn book_at(
        &mut self,
        place: u8,
        reading: &Reading,
        table: &mut Dues,
    ) -> Result<(), BankRefusal> {
        only_place(place)?;
        self.agreement.book(reading, table)?;
        Ok(())
    }
}
