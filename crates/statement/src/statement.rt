//! The statement of a list of calls.
ghost use Rattle.std.specs.Prelude.{◌≡◌, None, IfSome};
ghost use Rattle.statement.specs.Statements.{StatesPerformed, Unstated};

use crate::account::AccountTotals;
use crate::money::PlaceMoney;
use crate::sources::Sources;
use crate::tally::Tally;
use banks::Bank;
use history::{Call, Performance};
use metering::PLACE_COUNT;
use methodology::Methodology;

/// Most calls that are added up.
pub const CALL_LIMIT: usize = 4_294_967_296;

/// The account, and the money of each place, place 1 first.
#[derive(Clone, Copy)]
pub struct Statement {
    /// Over the closed months.
    pub account: AccountTotals,
    /// Place 1 first, whether the bank has it or not.
    pub places: [PlaceMoney; PLACE_COUNT],
}

impl Statement {
    /// The statement of a list of calls that was performed; none where the list is not the one that was performed, or has
    /// over `CALL_LIMIT` calls.
    pub fn of<B: Bank, M: Methodology>(
        calls: &[Call],
        performed: &Performance<B, M>,
    ) -> Option<Statement>
        ensures stated { IfSome result (StatesPerformed calls.now performed.now) }
        ensures none { result ≡ None → Unstated calls.now performed.now.answers.items }
    {
        let answers = performed.answers.as_slice();
        if answers.len() != calls.len() || calls.len() > CALL_LIMIT {
            return None;
        }
        let shape = M::shape();
        let tally = Tally::of(shape, calls, answers);
        let sources = Sources {
            tally: &tally,
            ledger: performed.house.ledger(),
            heads: shape.heads(),
        };
        Some(Statement {
            account: sources.account(),
            places: sources.places(),
        })
    }
}
