//! The faults of every layer. A fault has a number and a layer, and a sheet fault also a place.
//! `specs/Values.antt` gives every case its values in one definition.
#![tactic(auto)]

ghost use Rattle.std.specs.Prelude.{◌≡◌, Some};
ghost use Rattle.fault.specs.Values.{values_of, text_of};
ghost use Rattle.fault.specs.declared.Failure.{Failure};
ghost use Rattle.fault.specs.declared.Fault.{Fault};

use std::alloc::{AllocError, AllocFailed};
use std::fmt;

/// The part of the checker that refuses.
#[derive(Clone, Copy, Debug, PartialEq, Eq)]
pub enum Layer {
    Sheet,
    Table,
    Bench,
    Model,
}

/// What is wrong with the bytes of a sheet.
#[derive(Clone, Copy, Debug, PartialEq, Eq)]
pub enum SheetFault {
    /// The bytes end before the record does, or before the end record.
    Truncated = 1,
    /// No record begins with this letter.
    UnknownLetter = 2,
    /// A body byte is against the format or a rule.
    BadBody = 3,
    /// One more of a letter than its most.
    TooMany = 4,
    /// A second next value, invariant or height bound for the same thing.
    Repeated = 5,
    /// The end comes without an invariant or without a height bound.
    Incomplete = 6,
    /// Bytes follow the end record.
    TrailingBytes = 7,
}

/// Why the check table refuses a call.
#[derive(Clone, Copy, Debug, PartialEq, Eq)]
pub enum TableFault {
    /// The row limit or the length of a lent memory is not one that a table takes.
    BadMemory = 8,
    /// Some model makes the invariant false in a configuration that row 0 covers.
    UnsafeStart = 9,
    /// There is no such row or branch.
    NoSuchBranch = 10,
    /// The branch is not waiting.
    NotWaiting = 11,
    /// The ticket's branch is not out at this table.
    NotOut = 12,
    /// The height is above the sheet's bound.
    HeightAboveBound = 13,
    /// A name is needed, and none of the 32 is left.
    NamesExhausted = 14,
    /// More than 512 different terms are needed.
    TermsExhausted = 15,
    /// Some model and values meet the candidate's conditions.
    Satisfiable = 16,
    /// No renaming fits.
    NoRenaming = 17,
    /// Some model makes the invariant false in a configuration that the form covers.
    UnsafeForm = 18,
    /// The row limit is reached.
    RowLimit = 19,
}

/// Why the bench refuses a run.
#[derive(Clone, Copy, Debug, PartialEq, Eq)]
pub enum BenchFault {
    /// More than 10,000 steps.
    TooManySteps = 20,
    /// The inputs are not as many as the steps and the sheet ask for.
    InputsLength = 21,
    /// There are not 8 start values.
    StartsLength = 22,
}

/// Why a plant model is not made.
#[derive(Clone, Copy, Debug, PartialEq, Eq)]
pub enum ModelFault {
    /// An affine model's modulus is 0.
    ZeroModulus = 23,
}

/// Where a sheet's record stands: its number and the place of its first byte, both from 0.
#[derive(Clone, Copy, Debug, PartialEq, Eq)]
pub struct Place {
    pub record: usize,
    pub byte: usize,
}

/// A refusal by a rule.
#[derive(Clone, Copy, Debug, PartialEq, Eq)]
pub enum Fault {
    Sheet(SheetFault, Place),
    Table(TableFault),
    Bench(BenchFault),
    Model(ModelFault),
}

impl Fault {
    /// The number that the rules give this fault.
    pub fn number(&self) -> u8
        ensures { result ≡ (values_of self.now).number }
    {
        match self {
            Fault::Sheet(fault, _) => *fault as u8,
            Fault::Table(fault) => *fault as u8,
            Fault::Bench(fault) => *fault as u8,
            Fault::Model(fault) => *fault as u8,
        }
    }

    /// The layer that refused.
    pub fn layer(&self) -> Layer
        ensures { result ≡ (values_of self.now).layer }
    {
        match self {
            Fault::Sheet(_, _) => Layer::Sheet,
            Fault::Table(_) => Layer::Table,
            Fault::Bench(_) => Layer::Bench,
            Fault::Model(_) => Layer::Model,
        }
    }

    /// Where a sheet fault was met; no other fault has a place.
    pub fn place(&self) -> Option<Place>
        ensures { result ≡ (values_of self.now).place }
    {
        match self {
            Fault::Sheet(_, place) => Some(*place),
            _ => None,
        }
    }
}

// The conversions are written out, since a derived `From` has no contract.
impl From<TableFault> for Fault {
    ghost from_gives = { λ f r. r ≡ Fault.Table f };

    fn from(fault: TableFault) -> Fault {
        Fault::Table(fault)
    }
}

impl From<BenchFault> for Fault {
    ghost from_gives = { λ f r. r ≡ Fault.Bench f };

    fn from(fault: BenchFault) -> Fault {
        Fault::Bench(fault)
    }
}

/// `sheet fault N record R byte P`, or the layer's name, ` fault ` and the number.
impl fmt::Display for Fault {
    ghost output = { λ f. Some (text_of f) };

    fn fmt<W: fmt::Write>(&self, f: &mut fmt::Formatter<W>) -> fmt::Result {
        let number = self.number();
        match self {
            Fault::Sheet(_, place) => {
                let record = place.record;
                let byte = place.byte;
                write!(f, "sheet fault {number} record {record} byte {byte}")
            }
            Fault::Table(_) => write!(f, "table fault {number}"),
            Fault::Bench(_) => write!(f, "bench fault {number}"),
            Fault::Model(_) => write!(f, "model fault {number}"),
        }
    }
}

/// Why a call that also allocates did not succeed: a fault by the rules, or want of memory.
// Not one generic enum with others of its shape: `From<E>` would overlap with `From<AllocError>`.
#[derive(Clone, Copy, Debug, PartialEq, Eq)]
pub enum Failure {
    Fault(Fault),
    Memory,
}

// Written out, as above.
impl From<Fault> for Failure {
    ghost from_gives = { λ f r. r ≡ Failure.Fault f };

    fn from(fault: Fault) -> Failure {
        Failure::Fault(fault)
    }
}

impl From<AllocError> for Failure {
    ghost from_gives = { λ _ r. r ≡ Failure.Memory };

    fn from(_e: AllocError) -> Failure {
        Failure::Memory
    }
}

impl<T: Drop> From<AllocFailed<T>> for Failure {
    ghost from_gives = { λ _ r. r ≡ Failure.Memory };

    fn from(_e: AllocFailed<T>) -> Failure {
        Failure::Memory
    }
}
