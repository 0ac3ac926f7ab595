//! The line that is printed of a call, and of a refused file.
ghost use Rattle.std.specs.Prelude.{Some};
ghost use Rattle.printout.specs.Text.{line_text, file_text};

use crate::subject::Subject;
use crate::verb::verb_of;
use history::{Answer, Call};
use journal::Verb;
use meter_files::FileRefusal;
use orders::RETURNED;
use std::fmt;

/// The line of a call that was made, or that named an order that was not there.
#[derive(Clone, Copy)]
pub struct Line<'a> {
    /// Of the line, counted from 1.
    pub number: usize,
    /// How many draws were accepted up to here: the number of the order where this call drew one.
    pub orders: usize,
    /// What was asked.
    pub call: &'a Call,
    /// What came of it.
    pub answer: &'a Answer,
}

/// As `4 meter accepted place 1 dues 5500000`.
impl fmt::Display for Line<'_> {
    ghost output = { λ l. Some (line_text l.number l.orders l.call.now l.answer.now) };

    fn fmt<W: fmt::Write>(&self, f: &mut fmt::Formatter<W>) -> fmt::Result {
        let number = self.number;
        let orders = self.orders;
        let verb = verb_of(self.call);
        let subject = Subject::from(self.call);
        match *self.answer {
            Answer::Accepted | Answer::Closed(_) | Answer::Paid(_, _) => {
                write!(f, "{number} {verb} accepted{subject}")
            }
            Answer::Metered(dues) => write!(f, "{number} {verb} accepted{subject} dues {dues}"),
            Answer::Drawn(place, cents) => {
                write!(
                    f,
                    "{number} {verb} accepted{subject} order {orders} place {place} cents {cents}"
                )
            }
            Answer::Refused(why) => write!(f, "{number} {verb} {why}"),
            Answer::Returned => write!(f, "{number} {verb} refused {RETURNED}"),
            Answer::Absent => write!(f, "{number} {verb} absent{subject}"),
        }
    }
}

/// The line of a call that was not made, since the file of its reading was refused.
#[derive(Clone, Copy)]
pub struct FileLine {
    /// Of the line, counted from 1.
    pub number: usize,
    /// What was to be done with the reading.
    pub verb: Verb,
    /// Why the file makes no reading.
    pub refusal: FileRefusal,
}

/// As `13 meter refused 3 detail 9`.
impl fmt::Display for FileLine {
    ghost output = { λ l. Some (file_text l.number l.verb l.refusal) };

    fn fmt<W: fmt::Write>(&self, f: &mut fmt::Formatter<W>) -> fmt::Result {
        let number = self.number;
        let verb = self.verb;
        let refusal = self.refusal;
        write!(f, "{number} {verb} {refusal}")
    }
}
