//! What the records of a sheet say. Things of one letter are numbered from 0 in the order of their
//! records, and every `u8` below that names a thing is such a number.

/// A state bit: how it starts, and the formula of its next value; without one it keeps its value.
#[derive(Clone, Copy, Debug, PartialEq, Eq)]
pub struct Bit {
    pub start: bool,
    pub next: Option<u8>,
}

/// How a reading starts: as one of the 8 start values, or as a constant's value.
#[derive(Clone, Copy, Debug, PartialEq, Eq)]
pub enum Start {
    Name(u8),
    Constant(u8),
}

/// A reading: how it starts, and the choice of its next value; without one it keeps its value.
#[derive(Clone, Copy, Debug, PartialEq, Eq)]
pub struct Reading {
    pub start: Start,
    pub next: Option<u8>,
}

/// The terms that a symbol is applied to.
#[derive(Clone, Copy, Debug, PartialEq, Eq)]
pub enum Args {
    Zero,
    One(u8),
    Two(u8, u8),
    Three(u8, u8, u8),
}

#[derive(Clone, Copy, Debug, PartialEq, Eq)]
pub enum Term {
    Reading(u8),
    Input(u8),
    Apply(u8, Args),
}

/// Two terms that are compared, by a question or by a claim.
#[derive(Clone, Copy, Debug, PartialEq, Eq)]
pub struct Equation {
    pub left: u8,
    pub right: u8,
}

#[derive(Clone, Copy, Debug, PartialEq, Eq)]
pub enum Formula {
    True,
    Bit(u8),
    Question(u8),
    Claim(u8),
    Not(u8),
    And(u8, u8),
    Or(u8, u8),
}

/// A choice is a term, or by a formula one of two earlier choices.
#[derive(Clone, Copy, Debug, PartialEq, Eq)]
pub enum Choice {
    Term(u8),
    If(u8, u8, u8),
}

/// A record before the end record, with what its body says.
#[derive(Clone, Copy, Debug, PartialEq, Eq)]
pub enum Record {
    Bit(bool),
    Symbol(u8),
    Reading(Start),
    Input,
    Term(Term),
    Question(Equation),
    Claim(Equation),
    Formula(Formula),
    Choice(Choice),
    NextBit(u8, u8),
    NextReading(u8, u8),
    Invariant(u8),
    Bound(u8),
}

/// The height of a term, and whether an input stands in it.
#[derive(Clone, Copy, Debug, PartialEq, Eq)]
pub struct TermInfo {
    pub height: u8,
    pub has_input: bool,
}

impl TermInfo {
    /// Of a term with nothing below it.
    pub const BLANK: TermInfo = TermInfo {
        height: 0,
        has_input: false,
    };
}

/// Whether a question, and whether a claim, stands in a formula.
#[derive(Clone, Copy, Debug, PartialEq, Eq)]
pub struct FormulaInfo {
    pub has_question: bool,
    pub has_claim: bool,
}

impl FormulaInfo {
    /// Of a formula with neither.
    pub const BLANK: FormulaInfo = FormulaInfo {
        has_question: false,
        has_claim: false,
    };
}

/// A term with what the rules ask of it.
#[derive(Clone, Copy, Debug, PartialEq, Eq)]
pub struct TermEntry {
    pub term: Term,
    pub info: TermInfo,
}

/// A formula with what the rules ask of it.
// Beside `TermEntry`: the definitions name what each of the two holds.
#[derive(Clone, Copy, Debug, PartialEq, Eq)]
pub struct FormulaEntry {
    pub formula: Formula,
    pub info: FormulaInfo,
}
