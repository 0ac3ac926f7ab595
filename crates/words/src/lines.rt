//! The lines of a text, one after another.
ghost use Rattle.std.specs.Prelude.{◌≡◌, ◌+◌, ◌^◌, ◌<◌, length};

use crate::pieces::next_line;

/// What is left of a text, and how many lines were taken from it.
#[derive(Clone, Copy)]
pub struct Lines<'a> {
    taken: usize,
    rest: &'a [u8],
    // so that each line has a number
    ghost countable: { taken + length rest.now < 2 ^ 64 },
}

impl<'a> Lines<'a> {
    ghost use Rattle.words.specs.Pieces.{lines};
    ghost use Rattle.words.specs.Numbered.{numbered, lines_left};

    /// All lines of a text.
    pub fn of(text: &'a [u8]) -> Lines<'a>
        ensures { lines_left result ≡ numbered 0 (lines text.now) }
    {
        Lines {
            taken: 0,
            rest: text,
        }
    }
}

impl<'a> Iterator for Lines<'a> {
    ghost use Rattle.std.specs.Iterator.{YieldsFirstBy, item_count};
    ghost use Rattle.words.specs.Numbered.{numbered_line, lines_left};

    type Item = (usize, &'a [u8]);

    ghost next_gives = { YieldsFirstBy numbered_line lines_left };

    ghost remaining = { item_count lines_left };

    /// Takes the next line with its number, counted from 1.
    fn next(&mut self) -> Option<(usize, &'a [u8])> {
        if self.rest.is_empty() {
            return None;
        }
        let (line, behind) = next_line(self.rest);
        self.taken += 1;
        self.rest = behind;
        Some((self.taken, line))
    }
}
