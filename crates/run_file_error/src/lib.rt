//! Why a run file is not read: the problem, its line, and what is printed of them.
#![tactic(auto)]

ghost use Rattle.std.specs.Prelude.{◌≡◌, Some};
ghost use Rattle.run_file_error.specs.Texts.{problem_text, line_text, failure_text};
ghost use Rattle.run_file_error.specs.declared.ReadFailure.{ReadFailure};

use std::fmt;

/// What is wrong with a line.
#[derive(Clone, Copy, Debug, PartialEq, Eq)]
pub enum Problem {
    /// The first word is not the name of a directive.
    UnknownDirective,
    /// A word after the first is not written with decimal digits alone.
    NotANumber,
    /// A number is 2^32 or more.
    NumberTooLarge,
    /// A directive has fewer numbers than it needs.
    TooFewNumbers,
    /// A directive has more numbers than it takes.
    TooManyNumbers,
    /// A symbol number is above 31.
    SymbolTooLarge,
    /// A coefficient of a curve is above 65,535.
    CoefficientTooLarge,
    /// A directive stands before the plant is named.
    PlantNotFirst,
    /// The plant is named a second time.
    PlantRepeated,
    /// An entry is given for an affine plant.
    EntryUnderAffine,
    /// A curve is given for a listed plant.
    CurveUnderListed,
    /// The start values are given a second time.
    StartRepeated,
    /// The steps are given a second time.
    StepsRepeated,
    /// The file ends without a plant.
    PlantMissing,
    /// The file ends without start values.
    StartMissing,
    /// The file ends without the steps.
    StepsMissing,
}

/// A problem and the line that has it, counted from 1.
#[derive(Clone, Copy, Debug, PartialEq, Eq)]
pub struct LineError {
    pub line: usize,
    pub problem: Problem,
}

/// Why a run file is not read.
// Not one generic enum with `run_file`'s `Halt`: `From<E>` would overlap with `From<AllocError>`.
#[derive(Clone, Copy, Debug, PartialEq, Eq)]
pub enum ReadFailure {
    Line(LineError),
    Memory,
}

// Written out, since a derived `From` has no contract.
impl From<LineError> for ReadFailure {
    ghost from_gives = { λ e r. r ≡ ReadFailure.Line e };

    fn from(error: LineError) -> ReadFailure {
        ReadFailure::Line(error)
    }
}

impl fmt::Display for Problem {
    ghost output = { λ p. Some (problem_text p) };

    fn fmt<W: fmt::Write>(&self, f: &mut fmt::Formatter<W>) -> fmt::Result {
        f.write_str(match self {
            Problem::UnknownDirective => "unknown directive",
            Problem::NotANumber => "not a decimal number",
            Problem::NumberTooLarge => "a number above 4294967295",
            Problem::TooFewNumbers => "too few numbers",
            Problem::TooManyNumbers => "too many numbers",
            Problem::SymbolTooLarge => "a symbol above 31",
            Problem::CoefficientTooLarge => "a coefficient above 65535",
            Problem::PlantNotFirst => "the plant is not named yet",
            Problem::PlantRepeated => "the plant is named twice",
            Problem::EntryUnderAffine => "an entry for an affine plant",
            Problem::CurveUnderListed => "a curve for a listed plant",
            Problem::StartRepeated => "a second start line",
            Problem::StepsRepeated => "a second steps line",
            Problem::PlantMissing => "the file ends without a plant",
            Problem::StartMissing => "the file ends without a start line",
            Problem::StepsMissing => "the file ends without a steps line",
        })
    }
}

/// `run file line L: ` and the problem.
impl fmt::Display for LineError {
    ghost output = { λ e. Some (line_text e) };

    fn fmt<W: fmt::Write>(&self, f: &mut fmt::Formatter<W>) -> fmt::Result {
        write!(f, "run file line {}: {}", self.line, self.problem)
    }
}

impl fmt::Display for ReadFailure {
    ghost output = { λ e. Some (failure_text e) };

    fn fmt<W: fmt::Write>(&self, f: &mut fmt::Formatter<W>) -> fmt::Result {
        match self {
            ReadFailure::Line(line) => line.fmt(f),
            ReadFailure::Memory => f.write_str("run file: out of memory"),
        }
    }
}
