//! Row 0, the conditions of a branch, the candidate of a row on a branch, and safety of a form, over lent memory.
//! `specs/Outcome.antt` and `specs/Judged.antt` say what the calls answer, `specs/Working.antt` and `specs/Cases.antt`
//! have the words of the inner functions.
#![tactic(auto)]

mod answers;
mod asking;
mod building;
mod calls;
pub mod conditions;
mod door;
mod instantiating;
mod naming;
mod safety;
mod starting;
mod successor;

pub use calls::{branch_conditions, candidate, first_row};
pub use conditions::Conditions;
pub use safety::is_safe;
