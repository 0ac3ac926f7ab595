//! Why a house does not do what it is asked.
ghost use Rattle.std.specs.Prelude.{◌≡◌, Some};
ghost use Rattle.ledger.specs.Refusals.{number_of, head_of, fault_of, of_year, of_tariff, of_bank, of_credit, of_close, of_draw};
ghost use Rattle.ledger.specs.Text.{refusal_text};

use agreements::Fault;
use banks::BankRefusal;
use orders::{CreditRefusal, DrawRefusal};
use settlement::CloseFault;
use std::fmt;
use tariffs::refusal::{TariffFault, YearRefused};

/// The refusals of a house's calls, with the numbers 6 to 21. Heads count from 1. An order that is not taken in comes back as
/// `orders::Returned`, which is refusal 22.
#[derive(Clone, Copy, PartialEq, Eq, Debug)]
pub enum Refusal {
    /// The reading is of the wrong kind.
    WrongKind,
    /// No month is open.
    NoMonth,
    /// The place is not in the bank.
    NoPlace,
    /// The place was read, or the licensee delivered, this month already.
    Again,
    /// The agreement does not admit the reading: its own fault.
    Agreement(Fault),
    /// The place's money would pass its limit.
    TooMuch,
    /// The house stands elsewhere in the year.
    NotNow,
    /// A year's revenues do not fit.
    Misallowed,
    /// A tariff's figures do not fit.
    Misfiled,
    /// A tariff's rate is outside its limits: the first such head.
    RateOutOfRange(usize),
    /// A stated count is not the house's own.
    Counts,
    /// A head has no quantity.
    NoQuantity(usize),
    /// An interval's energy sent in is under what was delivered or over twice that: its head.
    Supply(usize),
    /// An actual rate passes its limit.
    RateOverLimit(usize),
    /// A balance would pass its limit in size.
    BalancePast(usize),
    /// Under one cent stands at the place.
    UnderACent,
}

impl Refusal {
    /// The refusal's number.
    pub fn number(self) -> u8
        ensures { result ≡ number_of self }
    {
        match self {
            Refusal::WrongKind => 6,
            Refusal::NoMonth => 7,
            Refusal::NoPlace => 8,
            Refusal::Again => 9,
            Refusal::Agreement(_) => 10,
            Refusal::TooMuch => 11,
            Refusal::NotNow => 12,
            Refusal::Misallowed => 13,
            Refusal::Misfiled => 14,
            Refusal::RateOutOfRange(_) => 15,
            Refusal::Counts => 16,
            Refusal::NoQuantity(_) => 17,
            Refusal::Supply(_) => 18,
            Refusal::RateOverLimit(_) => 19,
            Refusal::BalancePast(_) => 20,
            Refusal::UnderACent => 21,
        }
    }

    /// The head that it names, where it names one.
    pub fn head(self) -> Option<usize>
        ensures { result ≡ head_of self }
    {
        match self {
            Refusal::RateOutOfRange(head)
            | Refusal::NoQuantity(head)
            | Refusal::Supply(head)
            | Refusal::RateOverLimit(head)
            | Refusal::BalancePast(head) => Some(head),
            _ => None,
        }
    }

    /// The agreement's own fault, where that is the reason.
    pub fn fault(self) -> Option<Fault>
        ensures { result ≡ fault_of self }
    {
        match self {
            Refusal::Agreement(fault) => Some(fault),
            _ => None,
        }
    }
}

/// As `refused 12`, `refused 17 head 3` or `refused 10 cause 1 layer 0`.
impl fmt::Display for Refusal {
    ghost output = { λ r. Some (refusal_text r) };

    fn fmt<W: fmt::Write>(&self, f: &mut fmt::Formatter<W>) -> fmt::Result {
        let number = self.number();
        match (self.head(), self.fault()) {
            (Some(head), _) => write!(f, "refused {number} head {head}"),
            (None, Some(fault)) => write!(f, "refused {number} {fault}"),
            (None, None) => write!(f, "refused {number}"),
        }
    }
}

impl From<YearRefused> for Refusal {
    ghost from_gives = { λ _ r. r ≡ of_year };

    fn from(_refused: YearRefused) -> Refusal {
        Refusal::Misallowed
    }
}

impl From<TariffFault> for Refusal {
    ghost from_gives = { λ f r. r ≡ of_tariff f };

    fn from(fault: TariffFault) -> Refusal {
        match fault {
            TariffFault::Misfiled => Refusal::Misfiled,
            TariffFault::OutOfRange(head) => Refusal::RateOutOfRange(head),
        }
    }
}

impl From<BankRefusal> for Refusal {
    ghost from_gives = { λ f r. r ≡ of_bank f };

    fn from(refusal: BankRefusal) -> Refusal {
        match refusal {
            BankRefusal::NoPlace => Refusal::NoPlace,
            BankRefusal::Fault(fault) => Refusal::Agreement(fault),
        }
    }
}

impl From<CreditRefusal> for Refusal {
    ghost from_gives = { λ e r. r ≡ of_credit e };

    fn from(refusal: CreditRefusal) -> Refusal {
        match refusal {
            CreditRefusal::NoPlace => Refusal::NoPlace,
            CreditRefusal::TooMuch => Refusal::TooMuch,
        }
    }
}

impl From<CloseFault> for Refusal {
    ghost from_gives = { λ f r. r ≡ of_close f };

    fn from(fault: CloseFault) -> Refusal {
        match fault {
            CloseFault::Counts => Refusal::Counts,
            CloseFault::NoQuantity(head) => Refusal::NoQuantity(head),
            CloseFault::Supply(head) => Refusal::Supply(head),
            CloseFault::RateOverLimit(head) => Refusal::RateOverLimit(head),
            CloseFault::BalancePast(head) => Refusal::BalancePast(head),
        }
    }
}

impl From<DrawRefusal> for Refusal {
    ghost from_gives = { λ e r. r ≡ of_draw e };

    fn from(refusal: DrawRefusal) -> Refusal {
        match refusal {
            DrawRefusal::NoPlace => Refusal::NoPlace,
            DrawRefusal::UnderACent => Refusal::UnderACent,
        }
    }
}
