//! The verb of a call, with which its line goes on behind the number.
ghost use Rattle.std.specs.Prelude.{◌≡◌};
ghost use Rattle.printout.specs.Words.{verb_of};

use history::{Call, Spending};
use journal::Verb;

/// The verb of a call; an order that is presented is released or held.
pub fn verb_of(call: &Call) -> Verb
    ensures { result ≡ verb_of call.now }
{
    match call {
        Call::Year(_) => Verb::Year,
        Call::Tariff(_) => Verb::Tariff,
        Call::Meter(_) => Verb::Meter,
        Call::Deliver(_) => Verb::Deliver,
        Call::Close(_) => Verb::Close,
        Call::Draw(_) => Verb::Draw,
        Call::Present(Spending::Release, _) => Verb::Release,
        Call::Present(Spending::Hold, _) => Verb::Hold,
    }
}
