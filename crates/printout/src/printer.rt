//! Who numbers the lines of a list, and the orders that are drawn in it.
ghost use Rattle.std.specs.Prelude.{◌≡◌};
ghost use Rattle.printout.specs.Counting.{next, orders_after, after_answer, after_file};
ghost use Rattle.printout.specs.Numbering.{NumberedAsNamed};

use crate::line::{FileLine, Line};
use history::{Answer, Call};
use journal::Verb;
use meter_files::FileRefusal;
use sheet::text_of;
use std::io;

/// How many lines there were, and how many of their calls drew an order.
#[derive(Clone, Copy, PartialEq, Eq, Debug, Default)]
pub struct Printer {
    lines: usize,
    orders: usize,
}

impl Printer {
    /// Before the first line.
    pub fn new() -> Printer
        ensures lines { result.lines ≡ 0 }
        ensures orders { result.orders ≡ 0 }
    {
        Printer::default()
    }

    /// Counts a line more, and answers its number.
    fn next_line(&mut self) -> usize
        ensures number { result ≡ next self.old.lines }
        ensures counted { self.new ≡ record { lines = result; orders = self.old.orders } }
    {
        self.lines = self.lines.saturating_add(1);
        self.lines
    }

    /// The next line: of a call and its answer.
    pub fn line<'a>(&mut self, call: &'a Call, answer: &'a Answer) -> Line<'a>
        ensures number { result.number ≡ next self.old.lines }
        ensures orders { result.orders ≡ orders_after self.old.orders answer.now }
        ensures call { result.call.now ≡ call.now }
        ensures answer { result.answer.now ≡ answer.now }
        ensures counted { self.new ≡ after_answer self.old answer.now }
        ensures law { NumberedAsNamed }
    {
        let number = self.next_line();
        if matches!(answer, Answer::Drawn(_, _)) {
            self.orders = self.orders.saturating_add(1);
        }
        Line {
            number,
            orders: self.orders,
            call,
            answer,
        }
    }

    /// The next line: of a call that was not made, since the file of its reading was refused.
    pub fn file_line(&mut self, verb: Verb, refusal: FileRefusal) -> FileLine
        ensures number { result.number ≡ next self.old.lines }
        ensures verb { result.verb ≡ verb }
        ensures refusal { result.refusal ≡ refusal }
        ensures counted { self.new ≡ after_file self.old }
    {
        let number = self.next_line();
        FileLine {
            number,
            verb,
            refusal,
        }
    }

    /// Prints the next line: of a call and its answer, and under an accepted closing its sheet.
    pub fn print(&mut self, rt: &HostRuntime, call: &Call, answer: &Answer) -> io::Result<()>
        ensures { self.new ≡ after_answer self.old answer.now }
    {
        let line = self.line(call, answer);
        println!(rt; "{line}")?;
        if let Answer::Closed(sheet) = answer {
            let text = text_of(sheet);
            print!(rt; "{text}")?;
        }
        Ok(())
    }
}
