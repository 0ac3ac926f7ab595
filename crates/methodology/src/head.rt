//! Heads, and how they are named.
ghost use Rattle.std.specs.Prelude.{◌≡◌, Some};
ghost use Rattle.methodology.specs.Heads.{by_demand, rate_limit};
ghost use Rattle.methodology.specs.Names.{letter, numeral, name};

use arith::{DEMAND_RATE_LIMIT, ENERGY_RATE_LIMIT};
use std::fmt;

/// What money is collected for: the month's costs are kept apart by head, and each head has a rate of its own, which all
/// licensees pay.
#[derive(Clone, Copy, PartialEq, Eq, Debug)]
pub enum Head {
    /// The generators' capacity.
    Generation,
    /// An allowed revenue, counted from 1.
    Revenue(usize),
    /// The energy of an interval, counted from 1.
    Interval(usize),
}

impl Head {
    /// Whether the head is billed by demand, kW, and not by energy, kWh.
    pub fn is_demand(self) -> bool
        ensures { result ≡ by_demand self }
    {
        matches!(self, Head::Generation | Head::Revenue(_))
    }

    /// Most that a rate of this head may be, grains per kW or per kWh.
    pub fn rate_limit(self) -> u64
        ensures { result ≡ rate_limit self }
    {
        if self.is_demand() {
            DEMAND_RATE_LIMIT
        } else {
            ENERGY_RATE_LIMIT
        }
    }

    /// The letter that its name begins with: G; T, B and S for the revenues, of which a market has three at most; E.
    pub fn letter(self) -> &'static str
        ensures { result.now ≡ letter self }
    {
        match self {
            Head::Generation => "G",
            Head::Revenue(1) => "T",
            Head::Revenue(2) => "B",
            Head::Revenue(3) => "S",
            Head::Revenue(_) => "R",
            Head::Interval(_) => "E",
        }
    }

    /// The number that its name has behind the letter. Only intervals have one, since they share a letter.
    pub fn numeral(self) -> Option<usize>
        ensures { result ≡ numeral self }
    {
        match self {
            Head::Generation | Head::Revenue(1..=3) => None,
            Head::Revenue(i) | Head::Interval(i) => Some(i),
        }
    }
}

/// G; T, B and S for the revenues; E1, E2 and so on for the intervals.
impl fmt::Display for Head {
    ghost output = { λ h. Some (name h) };

    fn fmt<W: fmt::Write>(&self, f: &mut fmt::Formatter<W>) -> fmt::Result {
        f.write_str(self.letter())?;
        match self.numeral() {
            Some(numeral) => write!(f, "{numeral}"),
            None => Ok(()),
        }
    }
}
