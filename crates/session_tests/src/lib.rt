//! Sessions that are printed, and scripts that can't be read.
#![tactic(auto)]

#[cfg(test)]
mod tests;
