//! Fields: a name and then so many figures.
ghost use Rattle.std.specs.Prelude.{◌≡◌, ℕ, ◌+◌, ◌^◌, ◌<◌, List, [], ◌∷◌, ◌++◌};
ghost use Rattle.words.specs.Pieces.{left};
ghost use Rattle.journal.specs.Fields.{Takes, Passes, Runs, keyword, named, run, row_of, figures, field, single, ended};

use crate::expected::Expected;
use crate::name::Name;
use rates::HEADS;
use tariffs::Row;
use words::{Words, is_figure, is_word, number};

/// Takes a word that has to be this one.
pub fn keyword(words: &mut Words, text: &str, expected: Expected) -> Result<(), Expected>
    ensures { Passes (keyword text.now expected (left words.old)) result (left words.new) }
{
    match words.next() {
        Some(word) if is_word(word, text.as_bytes()) => Ok(()),
        _ => Err(expected),
    }
}

/// Takes a name.
#[tactic(auto, unfolding(crate::specs::Fields::named))]
pub fn named(words: &mut Words, name: Name) -> Result<(), Expected>
    ensures { Passes (named name (left words.old)) result (left words.new) }
{
    keyword(words, name.text(), Expected::Field(name))
}

/// The row with one figure more.
fn with_figure(mut row: Row, figure: u64) -> Row
    requires { row.count + 1 < 2 ^ 64 }
    ensures { (fs : List ℕ) → row ≡ row_of fs → result ≡ row_of (fs ++ (figure ∷ [])) }
{
    if row.count < HEADS {
        row.figures[row.count] = figure;
    }
    row.count += 1;
    row
}

/// Takes all figures up to the first word that is none.
fn run(words: &mut Words, name: Name) -> Result<Row, Expected>
    ensures { Runs (run name [] (left words.old)) result (left words.new) }
{
    let mut row = Row {
        count: 0,
        figures: [0; HEADS],
    };
    let mut ahead = *words;
    // `words` stays before the word that ends the run: it is the next field's.
    while let Some(word) = ahead.next() {
        if !is_figure(word) {
            return Ok(row);
        }
        let Some(figure) = number(word) else {
            return Err(Expected::Most {
                name,
                most: u64::MAX,
            });
        };
        row = with_figure(row, figure);
        *words = ahead;
    }
    Ok(row)
}

/// Takes so many figures.
#[tactic(auto, unfolding(crate::specs::Fields::figures))]
pub fn figures(words: &mut Words, name: Name, wanted: usize) -> Result<Row, Expected>
    ensures { Takes (figures name wanted (left words.old)) result (left words.new) }
{
    let row = run(words, name)?;
    if row.count != wanted {
        return Err(Expected::Count {
            name,
            wanted,
            found: row.count,
        });
    }
    Ok(row)
}

/// Takes a name and so many figures.
#[tactic(auto, unfolding(crate::specs::Fields::field))]
pub fn field(words: &mut Words, name: Name, wanted: usize) -> Result<Row, Expected>
    ensures { Takes (field name wanted (left words.old)) result (left words.new) }
{
    named(words, name)?;
    figures(words, name, wanted)
}

/// Takes a name and one figure.
#[tactic(auto, unfolding(crate::specs::Fields::single))]
pub fn single(words: &mut Words, name: Name) -> Result<u64, Expected>
    ensures { Takes (single name (left words.old)) result (left words.new) }
{
    let row = field(words, name, 1)?;
    Ok(row.figures[0])
}

/// Nothing more stands on the line.
pub fn ended(mut words: Words) -> Result<(), Expected>
    ensures { result ≡ ended (left words.entry) }
{
    match words.next() {
        Some(_) => Err(Expected::End),
        None => Ok(()),
    }
}
