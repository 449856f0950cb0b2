//! Memory to lend to a table, and the sheets.
use reader::{read, smallest};
use rows::RowRecord;
use rules::{Counts, Mark};
use sheet::Sheet;
use std::alloc::{AllocError, Global};
use std::test::Fail;
use table::Table;
use terms::TermRecord;

// The bytes of examples/hopper.sheet. One bit that the input raises for good where it is s0; as it does, reading 1
// becomes s1 of reading 0, as which it is claimed while the bit is raised.
pub(crate) const HOPPER: &[u8] =
    b"F\x00F\x01B\x00R\x00\x00R\x00\x01IT\x00\x00\x00\x00\x00T\x00\x01\x00\x00\x00T\x01\x00\x00\x00\x00T\x02\x00\x00\x00\x00T\x02\x01\x00\x00\x00Q\x02\x03C\x01\x04L\x01\x00\x00L\x02\x00\x00L\x06\x00\x01L\x04\x00\x00L\x03\x00\x00L\x06\x03\x04K\x00\x04\x00\x00K\x00\x01\x00\x00K\x01\x01\x00\x01N\x00\x02M\x01\x02V\x05H\x01E";

/// How much memory a table is lent.
pub(crate) struct Lengths {
    pub(crate) bank: usize,
    pub(crate) rows: usize,
    pub(crate) marks: usize,
    pub(crate) work: usize,
}

/// As much as a table takes.
pub(crate) const WHOLE: Lengths = Lengths {
    bank: 512,
    rows: 64,
    marks: 4096,
    work: 512,
};

/// Memory to lend to a table.
#[derive(Drop)]
pub(crate) struct Memory {
    bank: Vec<TermRecord>,
    rows: Vec<RowRecord>,
    marks: Vec<Mark>,
    work: Vec<u16>,
}

impl Memory {
    pub(crate) fn new(heap: Global, lengths: &Lengths) -> Result<Memory, AllocError> {
        Ok(Memory {
            bank: vec![in heap; TermRecord::BLANK; lengths.bank]?,
            rows: vec![in heap; RowRecord::BLANK; lengths.rows]?,
            marks: vec![in heap; Mark::Waiting; lengths.marks]?,
            work: vec![in heap; 0u16; lengths.work]?,
        })
    }

    /// A table that was never opened, over the memory.
    pub(crate) fn table(&mut self) -> Table<'_> {
        Table::new(
            &mut self.bank,
            &mut self.rows,
            &mut self.marks,
            &mut self.work,
        )
    }
}

/// What a table without rows counts.
pub(crate) const NOTHING: Counts = Counts {
    rows: 0,
    kept: 0,
    merged: 0,
    struck: 0,
    waiting: 0,
    out: 0,
};

// As in the crate `bench_tests`: a crate for both would be longer.
pub(crate) fn sheet_of(heap: Global, bytes: &[u8]) -> Result<Sheet, Fail> {
    let mut sheet = smallest(heap)?;
    read(bytes, heap, &mut sheet)?;
    Ok(sheet)
}
