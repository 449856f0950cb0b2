//! The numbered things of a sheet.
use crate::syntax::{Bit, Choice, Equation, FormulaEntry, Reading, TermEntry};

/// The things of each letter by number; symbols by their arities.
#[derive(Drop)]
pub struct Parts {
    pub bits: Vec<Bit>,
    pub symbols: Vec<u8>,
    pub readings: Vec<Reading>,
    pub inputs: u8,
    pub terms: Vec<TermEntry>,
    pub questions: Vec<Equation>,
    pub claims: Vec<Equation>,
    pub formulas: Vec<FormulaEntry>,
    pub choices: Vec<Choice>,
}
