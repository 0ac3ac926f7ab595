//! Where a text is not as expected.
ghost use Rattle.std.specs.Option.{option_map};
ghost use Rattle.words.specs.Messages.{fault_text};

use std::fmt;

/// The first line, counted from 1, that is not as expected, and what was expected there.
#[derive(Clone, Copy, PartialEq, Eq, Debug)]
pub struct LineFault<E> {
    pub line: usize,
    pub expected: E,
}

/// As `2: expected 'demand KW'`, to stand behind the name of a file and a colon.
impl<E: fmt::Display> fmt::Display for LineFault<E> {
    ghost output = { λ t. option_map (fault_text t.line) (E.output t.expected) };

    fn fmt<W: fmt::Write>(&self, f: &mut fmt::Formatter<W>) -> fmt::Result {
        let line = self.line;
        let expected = &self.expected;
        write!(f, "{line}: {expected}")
    }
}
