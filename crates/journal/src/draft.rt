//! What the lines so far have said.
ghost use Rattle.std.specs.Prelude.{◌≡◌};
ghost use Rattle.words.specs.Pieces.{left};
ghost use Rattle.journal.specs.Lines.{saying, blank, others, AddsStation, AddsCall, AddsLine};

use crate::entry::Entry;
use crate::expected::Expected;
use crate::heading::{Heading, read_heading};
use crate::market::Market;
use crate::station::read_station;
use crate::unread::UnreadLine;
use banks::Unplaced;
use stations::Stations;
use std::alloc::Global;
use words::{Words, is_word};

/// A journal of which some lines are read.
#[derive(Drop)]
pub struct JournalDraft<'a> {
    /// What the stations are allocated from.
    heap: Global,
    /// What the market's line has said.
    pub heading: Option<Heading>,
    /// The stations so far, place 1 first.
    pub stations: Stations,
    /// The calls so far.
    pub entries: Vec<Entry<'a>>,
}

impl<'a> JournalDraft<'a> {
    /// Before the first line.
    pub fn blank(heap: Global) -> JournalDraft<'a>
        ensures { saying result ≡ blank }
    {
        JournalDraft {
            heap,
            heading: None,
            stations: Stations::new(heap),
            entries: Vec::new(heap),
        }
    }

    /// What a line may begin with, once the market is known.
    fn others(&self) -> Expected
        ensures { result ≡ others (saying self.now) }
    {
        if self.entries.is_empty() {
            Expected::StationOrCall
        } else {
            Expected::AnyCall
        }
    }

    /// Takes a station's line, from behind the word that begins it.
    #[tactic(auto, unfolding(crate::specs::Lines::with_station))]
    fn add_station(&mut self, words: Words) -> Result<(), UnreadLine>
        ensures { AddsStation self.old (left words.entry) result self.new }
    {
        let station = read_station(self.heap, words)?;
        match self.stations.push(station) {
            Ok(()) => Ok(()),
            Err(Unplaced::Full(_)) => Err(UnreadLine::Lacks(Expected::NoStation)),
            Err(Unplaced::NoMemory(_)) => Err(UnreadLine::NoMemory),
        }
    }

    /// Takes a call's line.
    #[tactic(auto, unfolding(crate::specs::Lines::with_call))]
    fn add_call(&mut self, market: Market, line: usize, words: Words<'a>) -> Result<(), UnreadLine>
        ensures { AddsCall self.old market line (left words.entry) result self.new }
    {
        let request = market.request(words, self.others())?;
        self.entries.push(Entry { line, request })?;
        Ok(())
    }

    /// Takes the next line, by its number and its words. A line of no words says nothing; the first that has some is the
    /// market's.
    #[tactic(auto, unfolding(crate::specs::Lines::with_words, crate::specs::Lines::with_heading))]
    pub fn add_line(&mut self, line: usize, words: Words<'a>) -> Result<(), UnreadLine>
        ensures { AddsLine self.old line (left words.entry) result self.new }
    {
        let mut behind = words;
        let Some(first) = behind.next() else {
            return Ok(());
        };
        let Some(heading) = self.heading else {
            let heading = read_heading(words)?;
            self.heading = Some(heading);
            return Ok(());
        };
        if is_word(first, b"station") && self.entries.is_empty() {
            self.add_station(behind)
        } else {
            self.add_call(heading.market, line, words)
        }
    }
}
