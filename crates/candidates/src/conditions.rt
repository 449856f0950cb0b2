//! The conditions of a branch.
use terms::Condition;

/// Conditions in memory of fixed size, of which the first `used` count.
#[derive(Clone, Copy)]
pub struct Conditions {
    pub list: [Condition; 22],
    pub used: u8,
}
