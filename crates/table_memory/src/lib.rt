//! Memory for a check table, on the heap. A table itself allocates nothing: it lies in memory that it is lent.
#![tactic(auto)]

ghost use Rattle.std.specs.Prelude.{IfOk};
ghost use Rattle.table_memory.specs.Room.{IsRoom};

use rows::RowRecord;
use rules::Mark;
use std::alloc::{AllocError, Global};
use terms::{MOST_TERMS, TermRecord};

/// A bank, rows, marks and work numbers, to be lent to a table.
#[derive(Drop)]
pub struct Memory {
    pub bank: Vec<TermRecord>,
    pub rows: Vec<RowRecord>,
    pub marks: Vec<Mark>,
    pub work: Vec<u16>,
}

impl Memory {
    /// Memory of the lengths that an open table needs, or want of memory.
    pub fn new(heap: Global) -> Result<Memory, AllocError>
        ensures { IfOk result IsRoom }
    {
        Ok(Memory {
            bank: vec![in heap; TermRecord::BLANK; MOST_TERMS]?,
            rows: vec![in heap; RowRecord::BLANK; 64]?,
            marks: vec![in heap; Mark::Waiting; 4096]?,
            work: vec![in heap; 0u16; MOST_TERMS]?,
        })
    }
}
