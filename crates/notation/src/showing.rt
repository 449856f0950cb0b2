//! Answers as they are printed.
ghost use Rattle.std.specs.Prelude.{◌≡◌, Some};
ghost use Rattle.notation.specs.Shown.{reason_text, stopped_text, answer_text};

use super::Unread;
use super::document::{Answer, Stopped};
use std::fmt;

impl Unread {
    /// What is wrong, in words.
    pub fn reason(&self) -> &'static str
        ensures { result.now ≡ reason_text self.now }
    {
        match self {
            Unread::NoTerm => "a term is expected",
            Unread::NoSuchName => "a name is x0 to x31",
            Unread::NoSuchSymbol => "a symbol is s0 to s255",
            Unread::TwoArities => "a symbol is used with two arities",
            Unread::NoArgumentEnd => "a comma or a closing bracket is expected",
            Unread::NoSign => "' = ' or ' # ' is expected",
            Unread::LineGoesOn => "the line should end here",
            Unread::TooManyTerms => "more than 512 terms",
            Unread::Memory => "no memory is left",
        }
    }
}

impl fmt::Display for Unread {
    ghost output = { λ why. Some (reason_text why) };

    fn fmt<W: fmt::Write>(&self, f: &mut fmt::Formatter<W>) -> fmt::Result {
        f.write_str(self.reason())
    }
}

/// `line L: ` and what is wrong.
impl fmt::Display for Stopped {
    ghost output = { λ s. Some (stopped_text s) };

    fn fmt<W: fmt::Write>(&self, f: &mut fmt::Formatter<W>) -> fmt::Result {
        let line = self.line;
        let why = self.why;
        write!(f, "line {line}: {why}")
    }
}

/// `impossible joins J`, `possible`, `full`, or where the text could not be read on.
impl fmt::Display for Answer {
    ghost output = { λ a. Some (answer_text a) };

    fn fmt<W: fmt::Write>(&self, f: &mut fmt::Formatter<W>) -> fmt::Result {
        match self {
            Answer::Impossible { joins } => write!(f, "impossible joins {joins}"),
            Answer::Possible => write!(f, "possible"),
            Answer::Full => write!(f, "full"),
            Answer::Unreadable(stopped) => write!(f, "{stopped}"),
        }
    }
}
