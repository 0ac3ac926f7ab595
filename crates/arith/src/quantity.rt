//! Why a division gives nothing.
ghost use Rattle.std.specs.Prelude.{◌≡◌};

/// The refusal to divide by a quantity of 0.
#[derive(Clone, Copy, PartialEq, Eq, Debug)]
pub struct NoQuantity;

impl NoQuantity {
    /// The number by which operators know it.
    pub fn number(self) -> u8
        ensures { result ≡ 17 }
    {
        17
    }
}
