//! Why a bank gives no dues.
ghost use Rattle.std.specs.Prelude.{◌≡◌, Some};
ghost use Rattle.banks.specs.declared.refusal.BankRefusal.TheVariants.{Fault as Inner};
ghost use Rattle.banks.specs.Refusals.{number_of, refusal_text};

use agreements::Fault;
use std::fmt;

/// What a bank refuses.
#[derive(Clone, Copy, PartialEq, Eq, Debug)]
pub enum BankRefusal {
    /// The bank has no such place.
    NoPlace,
    /// The agreement there does not admit the reading: its own fault.
    Fault(Fault),
}

impl BankRefusal {
    /// The refusal's number: 8, or 10 for any fault.
    pub fn number(self) -> u8
        ensures { result ≡ number_of self }
    {
        match self {
            BankRefusal::NoPlace => 8,
            BankRefusal::Fault(_) => 10,
        }
    }
}

impl From<Fault> for BankRefusal {
    ghost from_gives = { λ fault refusal. refusal ≡ Inner fault };

    fn from(fault: Fault) -> BankRefusal {
        BankRefusal::Fault(fault)
    }
}

/// As `refused 8`, or `refused 10 cause 1 layer 0`.
impl fmt::Display for BankRefusal {
    ghost output = { λ e. Some (refusal_text e) };

    fn fmt<W: fmt::Write>(&self, f: &mut fmt::Formatter<W>) -> fmt::Result {
        let number = self.number();
        match self {
            BankRefusal::NoPlace => write!(f, "refused {number}"),
            BankRefusal::Fault(inner) => write!(f, "refused {number} {inner}"),
        }
    }
}
