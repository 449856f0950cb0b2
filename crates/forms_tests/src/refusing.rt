//! Memory that holds no bank or no row.
use crate::memory::{ONE, same_first, sheet_of};
use fault::TableFault;
use folding::{form, takes};
use rows::RowRecord;
use sheet::Sheet;
use std::test::Fail;
use terms::{Condition, Count, MOST_TERMS, Node, Sign, TermRecord};

// Records as they stand, in a bank of so many places; the row has this place in its vector and this condition, of
// which it has so many. There is a form and the row takes itself, or the memory is refused as bad; nothing is changed.
struct Case {
    name: &'static str,
    records: &'static [(Node, u16, u32)],
    terms: u16,
    length: u16,
    labels: usize,
    place: u16,
    condition: (u16, u16),
    used: u8,
    forms: Result<(), TableFault>,
    takes: Result<bool, TableFault>,
}

static CASES: [Case; 20] = [
    Case {
        name: "a bank and a row",
        records: &[(Node::Name(0), 0, 1), (Node::Unary(1, 0), 1, 1)],
        terms: 2,
        length: 512,
        labels: 512,
        place: 1,
        condition: (0, 1),
        used: 1,
        forms: Ok(()),
        takes: Ok(true),
    },
    Case {
        name: "a repeated name",
        records: &[(Node::Name(0), 0, 1), (Node::Name(0), 0, 1)],
        terms: 2,
        length: 512,
        labels: 512,
        place: 0,
        condition: (0, 0),
        used: 1,
        forms: Err(TableFault::BadMemory),
        takes: Err(TableFault::BadMemory),
    },
    Case {
        name: "a repeated term",
        records: &[
            (Node::Name(0), 0, 1),
            (Node::Unary(1, 0), 1, 1),
            (Node::Unary(1, 0), 1, 1),
        ],
        terms: 3,
        length: 512,
        labels: 512,
        place: 0,
        condition: (0, 0),
        used: 1,
        forms: Err(TableFault::BadMemory),
        takes: Err(TableFault::BadMemory),
    },
    Case {
        name: "a repeated term past the count",
        records: &[
            (Node::Name(0), 0, 1),
            (Node::Unary(1, 0), 1, 1),
            (Node::Unary(1, 0), 1, 1),
        ],
        terms: 2,
        length: 512,
        labels: 512,
        place: 1,
        condition: (0, 0),
        used: 1,
        forms: Ok(()),
        takes: Ok(true),
    },
    Case {
        name: "a wrong height",
        records: &[(Node::Name(0), 0, 1), (Node::Unary(1, 0), 2, 1)],
        terms: 2,
        length: 512,
        labels: 512,
        place: 0,
        condition: (0, 0),
        used: 1,
        forms: Err(TableFault::BadMemory),
        takes: Err(TableFault::BadMemory),
    },
    Case {
        name: "wrong names",
        records: &[(Node::Name(0), 0, 1), (Node::Unary(1, 0), 1, 3)],
        terms: 2,
        length: 512,
        labels: 512,
        place: 0,
        condition: (0, 0),
        used: 1,
        forms: Err(TableFault::BadMemory),
        takes: Err(TableFault::BadMemory),
    },
    Case {
        name: "name 32",
        records: &[(Node::Name(0), 0, 1), (Node::Name(32), 0, 0)],
        terms: 2,
        length: 512,
        labels: 512,
        place: 0,
        condition: (0, 0),
        used: 1,
        forms: Err(TableFault::BadMemory),
        takes: Err(TableFault::BadMemory),
    },
    Case {
        name: "an argument behind its term",
        records: &[(Node::Unary(1, 1), 1, 1), (Node::Name(0), 0, 1)],
        terms: 2,
        length: 512,
        labels: 512,
        place: 0,
        condition: (0, 0),
        used: 1,
        forms: Err(TableFault::BadMemory),
        takes: Err(TableFault::BadMemory),
    },
    Case {
        name: "a vector place past the count",
        records: &[(Node::Name(0), 0, 1), (Node::Name(1), 0, 2)],
        terms: 1,
        length: 512,
        labels: 512,
        place: 1,
        condition: (0, 0),
        used: 1,
        forms: Err(TableFault::BadMemory),
        takes: Err(TableFault::BadMemory),
    },
    Case {
        name: "a left side past the count",
        records: &[(Node::Name(0), 0, 1), (Node::Name(1), 0, 2)],
        terms: 1,
        length: 512,
        labels: 512,
        place: 0,
        condition: (1, 0),
        used: 1,
        forms: Err(TableFault::BadMemory),
        takes: Err(TableFault::BadMemory),
    },
    Case {
        name: "a right side past the count",
        records: &[(Node::Name(0), 0, 1), (Node::Name(1), 0, 2)],
        terms: 1,
        length: 512,
        labels: 512,
        place: 0,
        condition: (0, 1),
        used: 1,
        forms: Err(TableFault::BadMemory),
        takes: Err(TableFault::BadMemory),
    },
    Case {
        name: "a condition that is not used",
        records: &[(Node::Name(0), 0, 1), (Node::Name(1), 0, 2)],
        terms: 1,
        length: 512,
        labels: 512,
        place: 0,
        condition: (7, 7),
        used: 0,
        forms: Ok(()),
        takes: Ok(true),
    },
    Case {
        name: "22 conditions are for a form alone",
        records: &[(Node::Name(0), 0, 1)],
        terms: 1,
        length: 512,
        labels: 512,
        place: 0,
        condition: (0, 0),
        used: 22,
        forms: Ok(()),
        takes: Err(TableFault::BadMemory),
    },
    Case {
        name: "17 conditions are for a form alone",
        records: &[(Node::Name(0), 0, 1)],
        terms: 1,
        length: 512,
        labels: 512,
        place: 0,
        condition: (0, 0),
        used: 17,
        forms: Ok(()),
        takes: Err(TableFault::BadMemory),
    },
    Case {
        name: "16 conditions",
        records: &[(Node::Name(0), 0, 1)],
        terms: 1,
        length: 512,
        labels: 512,
        place: 0,
        condition: (0, 0),
        used: 16,
        forms: Ok(()),
        takes: Ok(true),
    },
    Case {
        name: "23 conditions",
        records: &[(Node::Name(0), 0, 1)],
        terms: 1,
        length: 512,
        labels: 512,
        place: 0,
        condition: (0, 0),
        used: 23,
        forms: Err(TableFault::BadMemory),
        takes: Err(TableFault::BadMemory),
    },
    Case {
        name: "no term",
        records: &[(Node::Name(0), 0, 1)],
        terms: 0,
        length: 512,
        labels: 512,
        place: 0,
        condition: (0, 0),
        used: 1,
        forms: Err(TableFault::BadMemory),
        takes: Err(TableFault::BadMemory),
    },
    Case {
        name: "more terms than places",
        records: &[(Node::Name(0), 0, 1)],
        terms: 513,
        length: 512,
        labels: 512,
        place: 0,
        condition: (0, 0),
        used: 1,
        forms: Err(TableFault::BadMemory),
        takes: Err(TableFault::BadMemory),
    },
    Case {
        name: "a bank of 511 places",
        records: &[(Node::Name(0), 0, 1)],
        terms: 1,
        length: 511,
        labels: 512,
        place: 0,
        condition: (0, 0),
        used: 1,
        forms: Err(TableFault::BadMemory),
        takes: Err(TableFault::BadMemory),
    },
    Case {
        name: "too few labels",
        records: &[(Node::Name(0), 0, 1)],
        terms: 1,
        length: 512,
        labels: 511,
        place: 0,
        condition: (0, 0),
        used: 1,
        forms: Ok(()),
        takes: Err(TableFault::BadMemory),
    },
];

fn records_of(case: &Case) -> [TermRecord; MOST_TERMS] {
    let mut bank = [TermRecord::BLANK; MOST_TERMS];
    for (record, written) in bank.iter_mut().zip(case.records) {
        let (node, height, names) = *written;
        *record = TermRecord {
            node,
            height,
            names,
        };
    }
    bank
}

// Whether the bank is as it was.
fn is_kept(bank: &[TermRecord], count: Count, case: &Case) -> bool {
    count.terms == case.terms && same_first(&records_of(case), bank, case.length as usize)
}

fn row_of(case: &Case) -> RowRecord {
    let (left, right) = case.condition;
    RowRecord {
        bits: [false; 16],
        vector: [case.place, 999, 999, 999, 999, 999],
        conditions: [Condition {
            left,
            right,
            sign: Sign::Equal,
        }; 22],
        used: case.used,
    }
}

// Beside `takes_as_said`: each asks another call, in other memory.
fn forms_as_said(sheet: &Sheet, bank: &mut [TermRecord], case: &Case) -> bool {
    let mut count = Count { terms: case.terms };
    let answer = form(sheet, bank, &mut count, &row_of(case), 4);
    answer.map(|_| ()) == case.forms && is_kept(bank, count, case)
}

fn takes_as_said(sheet: &Sheet, bank: &mut [TermRecord], labels: &mut [u16], case: &Case) -> bool {
    let mut count = Count { terms: case.terms };
    let row = row_of(case);
    let answer = takes(sheet, bank, &mut count, &row, &row, labels);
    answer.map(|found| found.is_some()) == case.takes && is_kept(bank, count, case)
}

fn comes_out(sheet: &Sheet, case: &Case) -> bool {
    let length = case.length.min(512) as usize;
    let used = case.labels.min(512);
    let mut bank = records_of(case);
    let mut other = records_of(case);
    let mut labels = [0; 512];
    forms_as_said(sheet, &mut bank[..length], case)
        && takes_as_said(sheet, &mut other[..length], &mut labels[..used], case)
}

#[test]
fn other_memory_is_refused(rt: HostRuntime) -> Result<(), Fail> {
    let sheet = sheet_of(rt.alloc(), ONE)?;
    // A loop beside each table: a trait for the tables' cases would be longer.
    for case in &CASES {
        assert!(rt; comes_out(&sheet, case), "{}", case.name);
    }
    Ok(())
}
