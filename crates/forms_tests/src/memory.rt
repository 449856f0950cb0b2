//! Rows as the tables write them, laid into a bank.
use fault::TableFault;
use reader::{read, smallest};
use rows::{RowRecord, at_or, bits_of, readings_of};
use sheet::Sheet;
use std::alloc::Global;
use std::test::Fail;
use terms::{Condition, Count, MOST_TERMS, Node, Sign, TermRecord, intern, with_places};

// Sheets with one bit and one, two or three readings.
pub(crate) const ONE: &[u8] = b"B\x00R\x00\x00L\x00\x00\x00V\x00H\x04E";

pub(crate) const TWO: &[u8] = b"B\x00R\x00\x00R\x00\x01L\x00\x00\x00V\x00H\x04E";

pub(crate) const THREE: &[u8] = b"B\x00R\x00\x00R\x00\x01R\x00\x02L\x00\x00\x00V\x00H\x04E";

/// A row whose terms are numbers in a list of terms, all its bits alike.
pub(crate) struct Written {
    pub(crate) bits: bool,
    pub(crate) vector: &'static [u16],
    pub(crate) conditions: &'static [(u16, Sign, u16)],
}

// As in the crate `bench_tests`: a crate for both would be longer.
pub(crate) fn sheet_of(heap: Global, bytes: &[u8]) -> Result<Sheet, Fail> {
    let mut sheet = smallest(heap)?;
    read(bytes, heap, &mut sheet)?;
    Ok(sheet)
}

/// A bank, and the places in it of the terms that have numbers.
#[derive(Drop)]
pub(crate) struct Memory {
    pub(crate) bank: [TermRecord; MOST_TERMS],
    pub(crate) count: Count,
    places: Vec<u16>,
}

impl Memory {
    pub(crate) fn empty(heap: Global) -> Memory {
        Memory {
            bank: [TermRecord::BLANK; MOST_TERMS],
            count: Count { terms: 0 },
            places: Vec::new(heap),
        }
    }

    /// Adds terms, each over those before it by their numbers, and numbers them on.
    pub(crate) fn load(&mut self, nodes: &[Node]) -> Result<(), Fail> {
        for node in nodes {
            let made = with_places(*node, self.places.as_slice()).ok_or(TableFault::BadMemory)?;
            let place = intern(&mut self.bank, &mut self.count, made)?;
            self.places.push(place)?;
        }
        Ok(())
    }

    /// Adds terms that stand in no row, until the bank has `most`.
    pub(crate) fn fill(&mut self, most: u16) -> Result<(), TableFault> {
        let mut last = 0;
        for _ in self.count.terms..most {
            last = intern(&mut self.bank, &mut self.count, Node::Unary(31, last))?;
        }
        Ok(())
    }

    fn place(&self, number: u16) -> u16 {
        at_or(self.places.as_slice(), number as usize, u16::MAX)
    }

    fn vector_of(&self, written: &[u16]) -> [u16; 6] {
        let mut vector = [0; 6];
        for (place, number) in vector.iter_mut().zip(written) {
            *place = self.place(*number);
        }
        vector
    }

    fn conditions_of(&self, written: &[(u16, Sign, u16)]) -> [Condition; 22] {
        let mut conditions = [Condition::BLANK; 22];
        for (condition, sides) in conditions.iter_mut().zip(written) {
            let (left, sign, right) = *sides;
            *condition = Condition {
                left: self.place(left),
                right: self.place(right),
                sign,
            };
        }
        conditions
    }

    /// The record of a row, by the places of its terms.
    pub(crate) fn row_of(&self, written: &Written) -> RowRecord {
        RowRecord {
            bits: [written.bits; 16],
            vector: self.vector_of(written.vector),
            conditions: self.conditions_of(written.conditions),
            used: written.conditions.len().min(255) as u8,
        }
    }
}

/// Whether both have so many elements, and the same ones.
pub(crate) fn same_first<T: PartialEq>(a: &[T], b: &[T], used: usize) -> bool {
    used <= a.len() && used <= b.len() && a[..used] == b[..used]
}

/// Whether two records stand for one row of the sheet. Spare places may differ.
pub(crate) fn same_row(sheet: &Sheet, a: &RowRecord, b: &RowRecord) -> bool {
    same_first(&a.bits, &b.bits, bits_of(sheet).min(16))
        && same_first(&a.vector, &b.vector, readings_of(sheet).min(6))
        && a.used == b.used
        && same_first(&a.conditions, &b.conditions, a.used as usize)
}
