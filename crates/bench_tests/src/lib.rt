//! Tests of the bench: its refusals, its answers, the place for the last configuration and the order of the
//! questions that are put to a model.
#![tactic(auto)]

pub mod recorder;
#[cfg(test)]
mod tests;
