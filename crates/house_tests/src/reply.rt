//! What is expected of a call.
use history::Answer;
use ledger::Refusal;

/// The answer of a call, but for the sheet of a closed month: so replies can be compared.
#[derive(Clone, Copy, PartialEq, Eq, Debug)]
pub enum Reply {
    Accepted,
    Metered(u64),
    Closed,
    Drawn(u8, u64),
    Paid(u8, u64),
    Refused(Refusal),
    Returned,
    Absent,
}

impl From<&Answer> for Reply {
    fn from(answer: &Answer) -> Reply {
        match answer {
            Answer::Accepted => Reply::Accepted,
            Answer::Metered(dues) => Reply::Metered(*dues),
            Answer::Closed(_) => Reply::Closed,
            Answer::Drawn(place, cents) => Reply::Drawn(*place, *cents),
            Answer::Paid(place, cents) => Reply::Paid(*place, *cents),
            Answer::Refused(why) => Reply::Refused(*why),
            Answer::Returned => Reply::Returned,
            Answer::Absent => Reply::Absent,
        }
    }
}
