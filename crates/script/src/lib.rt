//! The script of a session: the calls that are made on a check table, and its openings, one to a line.
#![tactic(auto)]

mod error;
mod keyword;
mod reading;
mod step;

pub use error::{LineError, Problem, ReadFailure};
pub use reading::read;
pub use step::Step;
