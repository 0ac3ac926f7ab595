//! A bank that a program makes while it runs.
ghost use Rattle.std.specs.Prelude.{◌≡◌, ◌≤◌, [], vec_len, map, length};
ghost use Rattle.std.proofs.Common.{arith};
ghost use Rattle.std.proofs.lemmas.List.{length-map};
ghost use Rattle.metering.specs.Limits.{place_limit};

use crate::bank::Bank;
use crate::refusal::BankRefusal;
use agreements::{Agreement, Dues};
use metering::{PLACES, Reading, index_of};
use std::alloc::Global;

/// A list of agreements of one type, the first at place 1.
#[derive(Drop)]
pub struct Listed<T> {
    list: Vec<T>,
    ghost few: { vec_len list ≤ place_limit },
}

/// Why an agreement finds no place. It is handed back.
#[derive(Drop)]
pub enum Unplaced<T> {
    /// Every place is taken.
    Full(T),
    /// There is no memory for one place more.
    NoMemory(T),
}

impl<T> Listed<T> {
    ghost use Rattle.banks.specs.Placing.{Places, IsIndex};

    /// A list with no place.
    pub fn new(heap: Global) -> Listed<T>
        ensures { result.list.items ≡ [] }
    {
        Listed {
            list: Vec::new(heap),
        }
    }

    /// Puts an agreement at the next place.
    pub fn push(&mut self, agreement: T) -> Result<(), Unplaced<T>>
        ensures { Places self.old.list.items agreement result self.new.list.items }
    {
        if self.list.len() >= usize::from(PLACES) {
            return Err(Unplaced::Full(agreement));
        }
        self.list
            .push(agreement)
            .map_err(|back| Unplaced::NoMemory(back.value))
    }

    /// Where the agreement of a place stands in the list.
    fn index_of(&self, place: u8) -> Result<usize, BankRefusal>
        ensures { IsIndex (length self.now.list.items) place result }
    {
        index_of(usize::from(place), self.list.len()).ok_or(BankRefusal::NoPlace)
    }
}

impl<T: Agreement> Bank for Listed<T> {
    ghost use Rattle.banks.specs.lemmas.Lists.{lawful_row};

    ghost row = { λ s. map T.Agreement.meaning s.list.items };

    ghost few = { λ b.
        omega (arith, length-map b.list.items T.Agreement.meaning, b.list.ok.0, b.few) };

    ghost lawful = { λ b k r.
        lawful_row T.Agreement.meaning b.list.items k r (λ x. T.Agreement.lawful x r) };

    fn places(&self) -> u8 {
        // There are 32 at most.
        self.list.len() as u8
    }

    fn ask_at(&self, place: u8, reading: &Reading, table: &mut Dues) -> Result<(), BankRefusal> {
        let index = self.index_of(place)?;
        self.list[index].ask(reading, table)?;
        Ok(())
    }

    fn book_at(
        &mut self,
        place: u8,
        reading: &Reading,
        table: &mut Dues,
    ) -> Result<(), BankRefusal> {
        let index = self.index_of(place)?;
        self.list[index].book(reading, table)?;
        Ok(())
    }
}
