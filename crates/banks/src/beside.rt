//! A bank that two others are joined into.
ghost use Rattle.std.specs.Prelude.{◌≡◌};
ghost use Rattle.banks.specs.Rows.{side_by_side};
ghost use Rattle.std.proofs.Common.{arith};
ghost use Rattle.banks.specs.Sides.{IsSide};
ghost use Rattle.banks.specs.lemmas.Sides.{length_sides, lawful_sides};

use crate::bank::Bank;
use crate::refusal::BankRefusal;
use agreements::Dues;
use metering::{PLACES, Reading};

/// Two banks as one. A place of the left bank keeps its number, and the right bank's places are counted on from there; one
/// that would have a number over 32 is lost.
#[derive(Drop)]
pub struct Beside<L, R> {
    left: L,
    right: R,
}

impl<L, R> Beside<L, R> {
    /// The left bank and the right one together.
    pub fn new(left: L, right: R) -> Beside<L, R>
        ensures { (result.left ≡ left) × (result.right ≡ right) }
    {
        Beside { left, right }
    }
}

/// The side of a place, and its number there.
#[derive(Clone, Copy)]
enum Side {
    Left(u8),
    Right(u8),
}

impl<L: Bank, R: Bank> Beside<L, R> {
    /// Where a place is.
    fn side(&self, place: u8) -> Result<Side, BankRefusal>
        ensures { IsSide (L.Bank.row self.now.left) (R.Bank.row self.now.right) place result }
    {
        let left = self.left.places();
        if place <= left {
            Ok(Side::Left(place))
        } else if place <= PLACES {
            Ok(Side::Right(place - left))
        } else {
            Err(BankRefusal::NoPlace)
        }
    }
}

impl<L: Bank, R: Bank> Bank for Beside<L, R> {
    ghost row = { λ s. side_by_side (L.Bank.row s.left) (R.Bank.row s.right) };

    ghost few = { λ b. omega (arith, length_sides (L.Bank.row b.left) (R.Bank.row b.right)) };

    ghost lawful = { λ b k r.
        lawful_sides (L.Bank.row b.left) (R.Bank.row b.right) r k (L.Bank.few b.left)
        (λ j. L.Bank.lawful b.left j r) (λ j. R.Bank.lawful b.right j r) };

    fn places(&self) -> u8 {
        let both = self.left.places() + self.right.places();
        both.min(PLACES)
    }

    fn ask_at(&self, place: u8, reading: &Reading, table: &mut Dues) -> Result<(), BankRefusal> {
        match self.side(place)? {
            Side::Left(there) => self.left.ask_at(there, reading, table)?,
            Side::Right(there) => self.right.ask_at(there, reading, table)?,
        }
        Ok(())
    }

    fn book_at(
        &mut self,
        place: u8,
        reading: &Reading,
        table: &mut Dues,
    ) -> Result<(), BankRefusal> {
        match self.side(place)? {
            Side::Left(there) => self.left.book_at(there, reading, table)?,
            Side::Right(there) => self.right.book_at(there, reading, table)?,
        }
        Ok(())
    }
}
