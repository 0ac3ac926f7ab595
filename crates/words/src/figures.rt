//! Figures: words of decimal digits.
ghost use Rattle.std.specs.Prelude.{◌≡◌, false, MatchOption};
ghost use Rattle.words.specs.Figures.{is_figure, FigureText, figure_of, number_of, OneDigitMore};

/// Whether a word is a figure.
pub fn is_figure(word: &[u8]) -> bool
    ensures { result ≡ is_figure word.now }
{
    !word.is_empty() && word.iter().all(u8::is_ascii_digit)
}

/// The digits of a figure, as a text.
fn digits(word: &[u8]) -> Option<&str>
    ensures { MatchOption result (is_figure word.now ≡ false) (FigureText word.now) }
{
    if is_figure(word) {
        str::from_utf8(word).ok()
    } else {
        None
    }
}

/// The number that a figure writes; one of more than 32 bits counts as the largest.
pub fn figure(word: &[u8]) -> Option<u32>
    ensures { result ≡ figure_of word.now }
{
    Some(digits(word)?.parse().unwrap_or(u32::MAX))
}

/// The number with one digit more, if 64 bits hold it; none where the byte is no digit.
fn with_digit(number: Option<u64>, byte: &u8) -> Option<u64>
    ensures { OneDigitMore number byte.now result }
{
    if byte.is_ascii_digit() {
        number?
            .checked_mul(10)?
            .checked_add(u64::from(*byte - b'0'))
    } else {
        None
    }
}

/// The number that a figure writes, if 64 bits hold it.
pub fn number(word: &[u8]) -> Option<u64>
    ensures { result ≡ number_of word.now }
{
    if word.is_empty() {
        None
    } else {
        word.iter().fold(Some(0), with_digit)
    }
}
