//! Rows in lent memory: their records, the names that stand in them, and whether memory holds a row.
//! `specs/Records.antt` says which row a record stands for, and `specs/Names.antt` which names a set has.
#![tactic(auto)]

mod name_sets;
pub mod row;
mod shape;
mod soundness;

pub use name_sets::{at_or, front, lowest_free, names_of_conditions, names_of_row, names_of_terms};
pub use row::{MOST_CANDIDATE_CONDITIONS, MOST_CONDITIONS, RowRecord};
pub use shape::{bits_of, readings_of};
pub use soundness::{is_inside, is_sound};
