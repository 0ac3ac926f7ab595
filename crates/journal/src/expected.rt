//! What a line that cannot be read should have said.
ghost use Rattle.std.specs.Prelude.{Some};
ghost use Rattle.journal.specs.Messages.{expected_text};

use crate::name::Name;
use agreements::limits::{CONTRACTED_LIMIT, QUOTA_LIMIT};
use arith::{DEMAND_RATE_LIMIT, ENERGY_RATE_LIMIT};
use metering::PLACES;
use std::fmt;
use words::Counted;

/// What was expected where a line cannot be read.
#[derive(Clone, Copy)]
pub enum Expected {
    /// The market's line, which comes first.
    MarketLine,
    /// Before the first call: a station or a call.
    StationOrCall,
    /// A call.
    AnyCall,
    /// The kind of a station's agreement.
    Agreement,
    /// A field by its name.
    Field(Name),
    /// As many figures as the field wants.
    Count {
        name: Name,
        wanted: usize,
        found: usize,
    },
    /// Figures that fit the field.
    Most {
        name: Name,
        most: u64,
    },
    /// The name of a meter file.
    FileName,
    /// Nothing more.
    End,
    /// Figures within the limits of a two-part agreement.
    TwoPartLimits,
    /// Figures within the limits of a quota.
    QuotaLimits,
    /// No further station: every place is taken.
    NoStation,
}

/// As `expected a file name`, or `'year' wants 2 figures, found 3`.
impl fmt::Display for Expected {
    ghost output = { λ e. Some (expected_text e) };

    fn fmt<W: fmt::Write>(&self, f: &mut fmt::Formatter<W>) -> fmt::Result {
        match *self {
            Expected::MarketLine => {
                f.write_str("expected 'market three serial NUMBER' or 'market two serial NUMBER'")
            }
            Expected::StationOrCall => f.write_str(
                "expected 'station', 'year', 'tariff', 'meter', 'deliver', 'close', 'draw', 'release' or 'hold'",
            ),
            Expected::AnyCall => f.write_str(
                "expected 'year', 'tariff', 'meter', 'deliver', 'close', 'draw', 'release' or 'hold'",
            ),
            Expected::Agreement => f.write_str("expected 'two-part' or 'quota'"),
            Expected::Field(name) => write!(f, "expected '{name}'"),
            Expected::Count {
                name,
                wanted,
                found,
            } => {
                let figures = Counted {
                    count: wanted,
                    noun: "figure",
                };
                write!(f, "'{name}' wants {figures}, found {found}")
            }
            Expected::Most { name, most } => write!(f, "'{name}' wants figures of at most {most}"),
            Expected::FileName => f.write_str("expected a file name"),
            Expected::End => f.write_str("expected the end of the line"),
            Expected::TwoPartLimits => {
                let contracted = CONTRACTED_LIMIT;
                let capacity = DEMAND_RATE_LIMIT;
                let energy = ENERGY_RATE_LIMIT;
                write!(
                    f,
                    "a two-part agreement has 'contracted' at most {contracted}, 'capacity' at most {capacity}, 'energy' at most {energy}"
                )
            }
            Expected::QuotaLimits => {
                let quota = QUOTA_LIMIT;
                let energy = ENERGY_RATE_LIMIT;
                write!(
                    f,
                    "a quota has 'kwh' at most {quota}, 'first' and 'second' at most {energy}"
                )
            }
            Expected::NoStation => {
                let places = PLACES;
                write!(f, "expected at most {places} stations")
            }
        }
    }
}
