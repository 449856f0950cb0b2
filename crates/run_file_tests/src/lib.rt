//! Run files that are read, and one for each problem.
#![tactic(auto)]

#[cfg(test)]
mod tests;
