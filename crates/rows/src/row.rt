//! A row in lent memory.
use terms::Condition;

/// The most conditions of a row that a table keeps.
pub const MOST_CONDITIONS: usize = 16;

/// The most conditions of a candidate: six questions' and its row's.
pub const MOST_CANDIDATE_CONDITIONS: usize = 22;

/// A row, with its terms by their places in the bank. Places past the sheet's bits and readings and past the `used`
/// conditions are spare.
// The list and its length are fields of the row itself, since the definitions of rows speak of each by its name.
#[derive(Clone, Copy)]
pub struct RowRecord {
    pub bits: [bool; 16],
    pub vector: [u16; 6],
    pub conditions: [Condition; 22],
    pub used: u8,
}

impl RowRecord {
    /// No bit set, every place 0, no condition.
    pub const BLANK: RowRecord = RowRecord {
        bits: [false; 16],
        vector: [0; 6],
        conditions: [Condition::BLANK; 22],
        used: 0,
    };
}
