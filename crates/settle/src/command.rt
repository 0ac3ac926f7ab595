//! What the words behind the program's name ask for.

/// How the program is called.
pub const USAGE: &str = "usage:
  settle run JOURNAL       perform a journal's calls; print what came of each, and the books
  settle check JOURNAL     say whether a journal can be read and its meter files opened
  settle help              print this
";

/// What the program is asked to do.
#[derive(Clone, Copy)]
pub enum Command<'a> {
    /// To perform the journal at a path.
    Run(&'a str),
    /// To say whether the journal at a path can be read and its meter files opened.
    Check(&'a str),
    /// To print how it is called.
    Help,
}

impl<'a> Command<'a> {
    /// What these words ask for; none where they are no command.
    pub fn of(words: &'a [String]) -> Option<Command<'a>> {
        let [verb, paths @ ..] = words else {
            return Some(Command::Help);
        };
        match (verb.as_str(), paths) {
            ("run", [path]) => Some(Command::Run(path.as_str())),
            ("check", [path]) => Some(Command::Check(path.as_str())),
            ("help", []) => Some(Command::Help),
            _ => None,
        }
    }
}
