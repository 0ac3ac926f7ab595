//! Why an agreement does not admit a reading, and why one is not made.
ghost use Rattle.std.specs.Prelude.{◌≡◌, Some};
ghost use Rattle.agreements.specs.Faults.{cause_number, over_limit_number, fault_text, over_limit_text};

use std::error::Error;
use std::fmt;

/// What is wrong with the reading.
#[derive(Clone, Copy, PartialEq, Eq, Debug)]
pub enum Cause {
    /// It shows more than was contracted.
    Contract,
    /// Its capacity due or its block sum would pass the ceiling.
    Ceiling,
}

impl Cause {
    /// The cause's number.
    pub fn number(self) -> u8
        ensures { result ≡ cause_number self }
    {
        match self {
            Cause::Contract => 1,
            Cause::Ceiling => 2,
        }
    }
}

/// Why a reading is not admitted, and which layer says so: 0 is the agreement that stands on no other.
#[derive(Clone, Copy, PartialEq, Eq, Debug)]
pub struct Fault {
    pub cause: Cause,
    pub layer: u8,
}

/// As `cause 1 layer 0`.
impl fmt::Display for Fault {
    ghost output = { λ e. Some (fault_text e) };

    fn fmt<W: fmt::Write>(&self, f: &mut fmt::Formatter<W>) -> fmt::Result {
        let cause = self.cause.number();
        let layer = self.layer;
        write!(f, "cause {cause} layer {layer}")
    }
}

/// An agreement is not made, because one of its figures is too large.
#[derive(Clone, Copy, PartialEq, Eq, Debug)]
pub struct OverLimit;

impl OverLimit {
    /// The refusal's number.
    pub fn number(self) -> u8
        ensures { result ≡ over_limit_number }
    {
        2
    }
}

impl fmt::Display for OverLimit {
    ghost output = { λ _. Some over_limit_text };

    fn fmt<W: fmt::Write>(&self, f: &mut fmt::Formatter<W>) -> fmt::Result {
        f.write_str("over its limit")
    }
}

impl Error for OverLimit {}
