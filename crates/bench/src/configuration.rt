//! The place for the last configuration of a run.

/// A value for each bit and each reading of a sheet, by number. Places past the sheet's own are false and 0.
#[derive(Clone, Copy, Debug, PartialEq, Eq)]
pub struct Configuration {
    pub bits: [bool; 16],
    pub readings: [u32; 6],
}

impl Configuration {
    /// No bit set, and every reading 0.
    pub const BLANK: Configuration = Configuration {
        bits: [false; 16],
        readings: [0; 6],
    };
}
