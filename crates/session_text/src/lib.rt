//! What is printed of a session on a check table.
#![tactic(auto)]

mod lines;
mod whole;
mod working;

pub use whole::session;
