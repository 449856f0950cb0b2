//! Sequence sheets: the types of a sheet, what its letters fix, and the truth of its formulas.
//! The rules for a sheet and its meaning are in `specs/`.
#![tactic(auto)]

mod bits;
pub mod kind;
mod letters;
mod memo;
pub mod parts;
pub mod sheet;
pub mod syntax;
mod truth;

pub use kind::Kind;
pub use memo::{recall, remember};
pub use parts::Parts;
pub use sheet::Sheet;
pub use syntax::{
    Args, Bit, Choice, Equation, Formula, FormulaEntry, FormulaInfo, Reading, Record, Start, Term,
    TermEntry, TermInfo,
};
pub use truth::Resolved;
