//! What came of a list of calls: a line for each entry, the sheets of the closings, and at the end the books.
use crate::call_list::CallList;
use crate::failure::Failure;
use history::Performance;
use methodology::Methodology;
use printout::Printer;
use statement::Statement;
use stations::Stations;

/// A journal's list, and what was performed of it.
#[derive(Drop)]
pub struct Outcome<'a, M: Methodology> {
    /// What was to be performed.
    pub list: &'a CallList,
    /// The house, the answers and the orders in hand after the last call.
    pub performance: &'a Performance<Stations, M>,
    /// How many places the market has.
    pub places: u8,
}

impl<'a, M: Methodology> Outcome<'a, M> {
    /// Prints the lines and then the books.
    pub fn print(&self, rt: &HostRuntime) -> Result<(), Failure> {
        self.print_lines(rt)?;
        self.print_books(rt)
    }

    /// Prints the line of each entry, in the order of the journal.
    fn print_lines(&self, rt: &HostRuntime) -> Result<(), Failure> {
        let mut printer = Printer::new();
        let mut performed = self.list.calls.iter().zip(self.performance.answers.iter());
        for entry in &self.list.entries {
            if let Some(file) = entry {
                let line = printer.file_line(file.verb, file.refusal);
                println!(rt; "{line}")?;
            } else if let Some((call, answer)) = performed.next() {
                printer.print(rt, call, answer)?;
            }
        }
        Ok(())
    }

    /// Prints the books: the account over the closed months, and the money of each of the market's places.
    fn print_books(&self, rt: &HostRuntime) -> Result<(), Failure> {
        let Some(books) = Statement::of(&self.list.calls, self.performance) else {
            eprintln!(rt; "settle: there are too many calls to be added up")?;
            return Err(Failure::Told);
        };
        let account = books.account;
        println!(rt; "{account}")?;
        for (place, money) in (1..=self.places).zip(books.places.iter()) {
            println!(rt; "place {place} {money}")?;
        }
        Ok(())
    }
}
