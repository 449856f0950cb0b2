//! Conditions in their written form, one to a line, read into a bank of terms.
//! `specs/Written.antt` has the form.
#![tactic(auto)]

mod document;
mod reading;
mod showing;
mod words;

/// Why a text is not read.
#[derive(Clone, Copy, Debug, PartialEq, Eq)]
pub enum Unread {
    /// A term is expected.
    NoTerm,
    /// A name is not one of x0 to x31.
    NoSuchName,
    /// A symbol is not one of s0 to s255.
    NoSuchSymbol,
    /// A symbol is used with two arities.
    TwoArities,
    /// After an argument a comma or a closing bracket is expected.
    NoArgumentEnd,
    /// Between two terms ` = ` or ` # ` is expected.
    NoSign,
    /// After the second term the line goes on.
    LineGoesOn,
    /// There are more than 512 different terms.
    TooManyTerms,
    /// No memory is left.
    Memory,
}

pub use document::{Answer, Stopped, decide_text};
