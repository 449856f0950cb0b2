//! Tests of rows, candidates, forms, matching and safety: tables of cases with their exact answers.
#![tactic(auto)]

pub mod covering;
#[cfg(test)]
mod forming;
#[cfg(test)]
mod matching;
#[cfg(test)]
mod memory;
#[cfg(test)]
mod refusing;
#[cfg(test)]
mod stepping;
