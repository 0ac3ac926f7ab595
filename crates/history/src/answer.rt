//! What a call answered, in plain numbers.
ghost use Rattle.std.specs.Prelude.{◌≡◌, option_map};
ghost use Rattle.history.specs.Answers.{refusal_of, sheet_of};
ghost use Rattle.history.specs.Histories.{told, meter_told};

use accounts::Sheet;
use ledger::Refusal;

/// What a call of a list answered.
#[derive(Clone, Copy)]
pub enum Answer {
    /// A year, a tariff, a delivery or a hold was accepted.
    Accepted,
    /// A station's reading was accepted: its dues, grains.
    Metered(u64),
    /// The month was closed: its sheet.
    Closed(Sheet),
    /// An order was drawn: its place and its cents.
    Drawn(u8, u64),
    /// An order was released: its place and its cents.
    Paid(u8, u64),
    /// The call was refused.
    Refused(Refusal),
    /// The order was not the house's own, and came back.
    Returned,
    /// The order named was not there, and no call was made.
    Absent,
}

impl Answer {
    /// Why the call was refused, if it was.
    pub fn refusal(&self) -> Option<Refusal>
        ensures { result ≡ refusal_of self.now }
    {
        match self {
            Answer::Refused(why) => Some(*why),
            _ => None,
        }
    }

    /// The sheet on which the month was closed, if one was.
    pub fn sheet(&self) -> Option<&Sheet>
        ensures { option_map (λ s. s.now) result ≡ sheet_of self.now }
    {
        match self {
            Answer::Closed(sheet) => Some(sheet),
            _ => None,
        }
    }
}

/// The answer of a call that says no more than whether it was accepted.
impl From<Result<(), Refusal>> for Answer {
    ghost from_gives = { λ r a. a ≡ told r };

    fn from(answer: Result<(), Refusal>) -> Answer {
        match answer {
            Ok(()) => Answer::Accepted,
            Err(why) => Answer::Refused(why),
        }
    }
}

/// The answer of a reading's call: the dues, where it was accepted.
impl From<Result<u64, Refusal>> for Answer {
    ghost from_gives = { λ r a. a ≡ meter_told r };

    fn from(answer: Result<u64, Refusal>) -> Answer {
        match answer {
            Ok(dues) => Answer::Metered(dues),
            Err(why) => Answer::Refused(why),
        }
    }
}
