//! Lines and words in a text.
ghost use Rattle.std.specs.Prelude.{◌≡◌, ◌∷◌, [], ℕ, Bool, MatchOption};
ghost use Rattle.std.specs.Str.{bytes_eq};
ghost use Rattle.words.specs.Pieces.{blank, Tests, piece, after, bare};
ghost use Rattle.words.specs.Pieces.{first_line, behind_line, first_word, TakesWord};

/// Cuts a text at the first byte that ends a piece: the piece, and what is left from that byte on. Either may be empty.
fn cut<F: FnMut(&u8) -> bool>(text: &[u8], ends: F) -> (&[u8], &[u8])
    requires { F.IsAlwaysCallable ends }
    ensures front { (p : ℕ → Bool) → Tests F.FnMut p ends → result.0.now ≡ piece p text.now }
    ensures back { (p : ℕ → Bool) → Tests F.FnMut p ends → result.1.now ≡ after p text.now }
{
    let end = text.iter().position(ends);
    text.split_at(end.unwrap_or(text.len()))
}

/// A space, a tab or a carriage return.
fn is_blank(byte: &u8) -> bool
    ensures { result ≡ blank byte.now }
{
    matches!(*byte, b' ' | b'\t' | b'\r')
}

/// The first line of a text, and what is behind its line feed. A text always has a first line, which may be empty.
pub fn next_line(text: &[u8]) -> (&[u8], &[u8])
    ensures front { result.0.now ≡ first_line text.now }
    ensures back { result.1.now ≡ behind_line text.now }
{
    let (line, rest) = cut(text, |byte| *byte == b'\n');
    match rest {
        [_, behind @ ..] => (line, behind),
        [] => (line, rest),
    }
}

/// A line without its comment.
pub fn without_comment(line: &[u8]) -> &[u8]
    ensures { result.now ≡ bare line.now }
{
    cut(line, |byte| *byte == b'#').0
}

/// The first word of a line, and what is behind it.
pub fn next_word(line: &[u8]) -> Option<(&[u8], &[u8])>
    ensures { MatchOption result (first_word line.now ≡ []) (TakesWord line.now) }
{
    let (_, words) = cut(line, |byte| !is_blank(byte));
    let (word, behind) = cut(words, is_blank);
    if word.is_empty() {
        None
    } else {
        Some((word, behind))
    }
}

/// Whether a word is this one.
pub fn is_word(word: &[u8], name: &[u8]) -> bool
    ensures { result ≡ bytes_eq word.now name.now }
{
    word == name
}
