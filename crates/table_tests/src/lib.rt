//! Tests of the check table: lists of calls with their exact answers, openings, and tickets that go from one table to
//! another.
#![tactic(auto)]

#[cfg(test)]
mod lists;
#[cfg(test)]
mod memory;
#[cfg(test)]
mod openings;
#[cfg(test)]
mod tickets;
