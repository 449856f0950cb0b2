//! The reader of sheets: from bytes to a sheet, or to the first fault.
#![tactic(auto)]

mod adding;
mod contents;
mod decode;
mod draft;
mod judging;
mod reading;

pub use reading::{read, read_records, smallest};
