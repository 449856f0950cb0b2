//! Layers over any model, an odd model, and tests of the models' corners.
#![tactic(auto)]

pub mod client;
pub mod counted;
pub mod odd;
#[cfg(test)]
mod tests;
