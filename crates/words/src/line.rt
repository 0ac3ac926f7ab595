//! The words of a line, one after another.
ghost use Rattle.std.specs.Prelude.{◌≡◌, ◌∷◌, [], MatchOption};
ghost use Rattle.words.specs.Pieces.{bare, words, left};

use crate::pieces::{next_word, without_comment};

/// What is left of a line whose comment is taken off.
#[derive(Clone, Copy)]
pub struct Words<'a> {
    rest: &'a [u8],
}

impl<'a> Words<'a> {
    /// All words of a line.
    pub fn of(line: &'a [u8]) -> Words<'a>
        ensures { left result ≡ words (bare line.now) }
    {
        Words {
            rest: without_comment(line),
        }
    }
}

impl<'a> Iterator for Words<'a> {
    ghost use Rattle.std.specs.Iterator.{YieldsFirstRef, item_count};

    type Item = &'a [u8];

    ghost next_gives = { YieldsFirstRef left };

    ghost remaining = { item_count left };

    /// Takes the next word, if there is one.
    fn next(&mut self) -> Option<&'a [u8]> {
        let (word, behind) = next_word(self.rest)?;
        self.rest = behind;
        Some(word)
    }
}
