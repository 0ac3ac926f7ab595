//! What can be split over a quantity.
ghost use Rattle.std.specs.Prelude.{◌≡◌, ℕ, ◌/◌, ◌%◌, ◌<◌};
ghost use Rattle.arith.specs.Division.{IsSplit};
ghost use Rattle.arith.specs.lemmas.Splits.{parts_split, split_parts};

/// A number of cents or grains, in 64 or in 128 bits.
pub trait Amount: Copy {
    ghost number: { Self → ℕ };

    /// The quotient and the rest, over a quantity.
    ghost parts: { Self → ℕ → Self × ℕ };

    /// Both at once. The quantity is not 0.
    fn div_rem(self, quantity: u64) -> (Self, u64)
        requires { 0 < quantity }
        ensures { result ≡ parts self quantity };

    ghost splits: { (amount : Self) (quantity : ℕ) →
        0 < quantity → IsSplit number amount quantity (parts amount quantity) };

    ghost only: { (amount rate : Self) (quantity carry : ℕ) →
        IsSplit number amount quantity (rate, carry) → parts amount quantity ≡ (rate, carry) };
}

impl Amount for u64 {
    ghost number = { λ n. n };

    ghost parts = { λ n quantity. (n / quantity, n % quantity) };

    ghost splits = { parts_split };

    ghost only = { split_parts };

    fn div_rem(self, quantity: u64) -> (u64, u64) {
        (self / quantity, self % quantity)
    }
}

impl Amount for u128 {
    ghost number = { λ n. n };

    ghost parts = { λ n quantity. (n / quantity, n % quantity) };

    ghost splits = { parts_split };

    ghost only = { split_parts };

    fn div_rem(self, quantity: u64) -> (u128, u64) {
        let quantity = u128::from(quantity);
        // What is left over is less than the quantity, which has 64 bits.
        (self / quantity, (self % quantity) as u64)
    }
}
