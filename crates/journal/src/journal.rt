//! Reading the text of a journal.
ghost use Rattle.std.specs.Prelude.{◌≡◌, ◌+◌, ◌^◌, ◌<◌};
ghost use Rattle.journal.specs.Lines.{saying};
ghost use Rattle.journal.specs.Text.{Reads, finished, journal_of};

use crate::draft::JournalDraft;
use crate::entry::Entry;
use crate::expected::Expected;
use crate::market::Market;
use crate::unread::{JournalFault, Unread};
use stations::Stations;
use std::alloc::Global;
use words::{Lines, Words};

/// What an operator asks: of which market, with what stations, and which calls in their order.
#[derive(Drop)]
pub struct Journal<'a> {
    /// Whose rules the house goes by.
    pub market: Market,
    /// The number that the house's pay orders bear.
    pub serial: u64,
    /// Place 1 first.
    pub stations: Stations,
    /// The calls, in their order.
    pub entries: Vec<Entry<'a>>,
}

/// The journal, if nothing is left to be said after the last of `lines` lines.
fn finish<'a>(draft: JournalDraft<'a>, lines: usize) -> Result<Journal<'a>, Unread>
    requires { lines + 1 < 2 ^ 64 }
    ensures { Reads (finished lines (saying draft.entry)) result }
{
    let Some(heading) = draft.heading else {
        return Err(Unread::At(JournalFault {
            line: lines + 1,
            expected: Expected::MarketLine,
        }));
    };
    Ok(Journal {
        market: heading.market,
        serial: heading.serial,
        stations: draft.stations,
        entries: draft.entries,
    })
}

/// The journal in a text, or the first line that cannot be read and what was expected there.
pub fn parse_journal<'a>(heap: Global, text: &'a [u8]) -> Result<Journal<'a>, Unread>
    ensures { Reads (journal_of text.now) result }
{
    let mut draft = JournalDraft::blank(heap);
    let mut last = 0;
    for (line, bytes) in Lines::of(text) {
        draft
            .add_line(line, Words::of(bytes))
            .map_err(|why| why.at(line))?;
        last = line;
    }
    finish(draft, last)
}
