//! Why a script is not read: the problem, its line, and what is printed of them.
ghost use Rattle.std.specs.Prelude.{◌≡◌, Some};
ghost use Rattle.script.specs.Texts.{problem_text, line_text};
ghost use Rattle.script.specs.Reading.{failed_at};
ghost use Rattle.script.specs.declared.error.Halt.{Halt};
ghost use Rattle.script.specs.declared.error.ReadFailure.{ReadFailure};

use std::alloc::{AllocError, AllocFailed};
use std::fmt;

/// What is wrong with a line.
#[derive(Clone, Copy, Debug, PartialEq, Eq)]
pub enum Problem {
    /// The first word names no call, and is not `open`.
    UnknownWord,
    /// A word after the first is not written with decimal digits alone.
    NotANumber,
    /// A number is above 255.
    NumberTooLarge,
    /// The call needs more numbers.
    TooFewNumbers,
    /// The call takes fewer numbers.
    TooManyNumbers,
}

/// A problem and the line that has it, counted from 1.
#[derive(Clone, Copy, Debug, PartialEq, Eq)]
pub struct LineError {
    pub line: usize,
    pub problem: Problem,
}

/// Why a script is not read.
// Not one generic enum with others of its shape: `From<E>` would overlap with `From<AllocError>`.
#[derive(Clone, Copy, Debug, PartialEq, Eq)]
pub enum ReadFailure {
    Line(LineError),
    Memory,
}

// Written out, since a derived `From` has no contract.
impl From<AllocError> for ReadFailure {
    ghost from_gives = { λ _ r. r ≡ ReadFailure.Memory };

    fn from(_e: AllocError) -> ReadFailure {
        ReadFailure::Memory
    }
}

/// Why a line is not taken: a problem of the text, or want of memory.
// Beside `ReadFailure`, as above.
#[derive(Clone, Copy, Debug, PartialEq, Eq)]
pub(crate) enum Halt {
    Problem(Problem),
    Memory,
}

impl Halt {
    /// The failure of this line.
    pub(crate) fn at(self, line: usize) -> ReadFailure
        ensures { result ≡ failed_at line self }
    {
        match self {
            Halt::Problem(problem) => ReadFailure::Line(LineError { line, problem }),
            Halt::Memory => ReadFailure::Memory,
        }
    }
}

impl From<Problem> for Halt {
    ghost from_gives = { λ p r. r ≡ Halt.Problem p };

    fn from(problem: Problem) -> Halt {
        Halt::Problem(problem)
    }
}

impl From<AllocError> for Halt {
    ghost from_gives = { λ _ r. r ≡ Halt.Memory };

    fn from(_e: AllocError) -> Halt {
        Halt::Memory
    }
}

impl<T: Drop> From<AllocFailed<T>> for Halt {
    ghost from_gives = { λ _ r. r ≡ Halt.Memory };

    fn from(_e: AllocFailed<T>) -> Halt {
        Halt::Memory
    }
}

impl fmt::Display for Problem {
    ghost output = { λ p. Some (problem_text p) };

    fn fmt<W: fmt::Write>(&self, f: &mut fmt::Formatter<W>) -> fmt::Result {
        f.write_str(match self {
            Problem::UnknownWord => "unknown word",
            Problem::NotANumber => "not a decimal number",
            Problem::NumberTooLarge => "a number above 255",
            Problem::TooFewNumbers => "too few numbers",
            Problem::TooManyNumbers => "too many numbers",
        })
    }
}

/// `line L: ` and the problem.
impl fmt::Display for LineError {
    ghost output = { λ e. Some (line_text e) };

    fn fmt<W: fmt::Write>(&self, f: &mut fmt::Formatter<W>) -> fmt::Result {
        write!(f, "line {}: {}", self.line, self.problem)
    }
}
