//! Why a text is no journal, and why a line of it is not read.
ghost use Rattle.std.specs.Prelude.{◌≡◌};
ghost use Rattle.journal.specs.Text.{unread_at};

use crate::expected::Expected;
use std::alloc::AllocFailed;
use words::LineFault;

/// The first line, counted from 1, that cannot be read, and what was expected there.
pub type JournalFault = LineFault<Expected>;

/// Why a text is not read.
#[derive(Clone, Copy)]
pub enum Unread {
    /// A line cannot be read.
    At(JournalFault),
    /// Memory ran out.
    NoMemory,
}

/// Why a line is not read.
#[derive(Clone, Copy)]
pub enum UnreadLine {
    /// It lacks what was expected.
    Lacks(Expected),
    /// Memory ran out.
    NoMemory,
}

impl UnreadLine {
    /// Why a text is not read of which this is said of a line.
    pub fn at(self, line: usize) -> Unread
        ensures { result ≡ unread_at line self }
    {
        match self {
            UnreadLine::Lacks(expected) => Unread::At(JournalFault { line, expected }),
            UnreadLine::NoMemory => Unread::NoMemory,
        }
    }
}

impl From<Expected> for UnreadLine {
    ghost use Rattle.journal.specs.declared.unread.UnreadLine.TheVariants.{Lacks};

    ghost from_gives = { λ expected u. u ≡ Lacks expected };

    fn from(expected: Expected) -> UnreadLine {
        UnreadLine::Lacks(expected)
    }
}

impl<T: Drop> From<AllocFailed<T>> for UnreadLine {
    ghost use Rattle.journal.specs.declared.unread.UnreadLine.TheVariants.{NoMemory};

    ghost from_gives = { λ _ u. u ≡ NoMemory };

    fn from(_: AllocFailed<T>) -> UnreadLine {
        UnreadLine::NoMemory
    }
}
