//! The run file: which plant, start values, steps and inputs a run on the bench has.
#![tactic(auto)]

ghost use Rattle.std.specs.Prelude.{◌≡◌};
ghost use Rattle.run_file.specs.Reading.{failed_at};
ghost use Rattle.run_file.specs.declared.Halt.{Halt};

use plant::affine::Curve;
use plant::listed::Entry;
use run_file_error::{LineError, Problem, ReadFailure};
use std::alloc::{AllocError, AllocFailed};

mod directive;
mod draft;
mod numbers;
mod reading;

pub use reading::read;

/// The plant that a run is on.
#[derive(Debug, Drop)]
pub enum Plant {
    Listed { default: u32, entries: Vec<Entry> },
    Affine { modulus: u32, curves: Vec<Curve> },
}

/// What a run file says.
#[derive(Debug, Drop)]
pub struct RunFile {
    pub plant: Plant,
    pub starts: Vec<u32>,
    pub steps: u32,
    pub inputs: Vec<u32>,
}

/// Why a line is not taken: a problem of the text, or want of memory.
// Not one generic enum with `ReadFailure`: `From<E>` would overlap with `From<AllocError>`.
#[derive(Clone, Copy, Debug, PartialEq, Eq)]
pub(crate) enum Halt {
    Problem(Problem),
    Memory,
}

impl Halt {
    /// The failure of this line.
    fn at(self, line: usize) -> ReadFailure
        ensures { result ≡ failed_at line self }
    {
        match self {
            Halt::Problem(problem) => ReadFailure::Line(LineError { line, problem }),
            Halt::Memory => ReadFailure::Memory,
        }
    }
}

// The conversions are written out, since a derived `From` has no contract.
impl From<Problem> for Halt {
    ghost from_gives = { λ p r. r ≡ Halt.Problem p };

    fn from(problem: Problem) -> Halt {
        Halt::Problem(problem)
    }
}

impl From<AllocError> for Halt {
    ghost from_gives = { λ _ r. r ≡ Halt.Memory };

    fn from(_e: AllocError) -> Halt {
        Halt::Memory
    }
}

impl<T: Drop> From<AllocFailed<T>> for Halt {
    ghost from_gives = { λ _ r. r ≡ Halt.Memory };

    fn from(_e: AllocFailed<T>) -> Halt {
        Halt::Memory
    }
}
