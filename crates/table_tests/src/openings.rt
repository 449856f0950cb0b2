//! Openings, and tables without rows.
use crate::memory::{HOPPER, Lengths, Memory, NOTHING, WHOLE, sheet_of};
use fault::TableFault;
use rules::{Answer, Branch, Call, Entry};
use std::test::Fail;
use table::{Table, Verdict};

// A bit that starts raised, and must not be.
const BROKEN: &[u8] = b"B\x01L\x01\x00\x00L\x04\x00\x00V\x01H\x00E";

struct Case {
    name: &'static str,
    sheet: &'static [u8],
    limit: u8,
    lengths: Lengths,
    answer: Result<(), TableFault>,
}

static CASES: [Case; 14] = [
    Case {
        name: "64 rows",
        sheet: HOPPER,
        limit: 64,
        lengths: WHOLE,
        answer: Ok(()),
    },
    Case {
        name: "1 row",
        sheet: HOPPER,
        limit: 1,
        lengths: WHOLE,
        answer: Ok(()),
    },
    Case {
        name: "65 rows",
        sheet: HOPPER,
        limit: 65,
        lengths: WHOLE,
        answer: Err(TableFault::BadMemory),
    },
    Case {
        name: "no row",
        sheet: HOPPER,
        limit: 0,
        lengths: WHOLE,
        answer: Err(TableFault::BadMemory),
    },
    Case {
        name: "a start that is not safe",
        sheet: BROKEN,
        limit: 64,
        lengths: WHOLE,
        answer: Err(TableFault::UnsafeStart),
    },
    Case {
        name: "that, and 65 rows",
        sheet: BROKEN,
        limit: 65,
        lengths: WHOLE,
        answer: Err(TableFault::BadMemory),
    },
    Case {
        name: "a short bank",
        sheet: HOPPER,
        limit: 64,
        lengths: Lengths {
            bank: 511,
            rows: 64,
            marks: 4096,
            work: 512,
        },
        answer: Err(TableFault::BadMemory),
    },
    Case {
        name: "a long bank",
        sheet: HOPPER,
        limit: 64,
        lengths: Lengths {
            bank: 513,
            rows: 64,
            marks: 4096,
            work: 512,
        },
        answer: Err(TableFault::BadMemory),
    },
    Case {
        name: "short rows",
        sheet: HOPPER,
        limit: 1,
        lengths: Lengths {
            bank: 512,
            rows: 63,
            marks: 4096,
            work: 512,
        },
        answer: Err(TableFault::BadMemory),
    },
    Case {
        name: "long rows",
        sheet: HOPPER,
        limit: 1,
        lengths: Lengths {
            bank: 512,
            rows: 65,
            marks: 4096,
            work: 512,
        },
        answer: Err(TableFault::BadMemory),
    },
    Case {
        name: "short marks",
        sheet: HOPPER,
        limit: 64,
        lengths: Lengths {
            bank: 512,
            rows: 64,
            marks: 4095,
            work: 512,
        },
        answer: Err(TableFault::BadMemory),
    },
    Case {
        name: "long marks",
        sheet: HOPPER,
        limit: 64,
        lengths: Lengths {
            bank: 512,
            rows: 64,
            marks: 4097,
            work: 512,
        },
        answer: Err(TableFault::BadMemory),
    },
    Case {
        name: "short work",
        sheet: HOPPER,
        limit: 64,
        lengths: Lengths {
            bank: 512,
            rows: 64,
            marks: 4096,
            work: 511,
        },
        answer: Err(TableFault::BadMemory),
    },
    Case {
        name: "no work",
        sheet: HOPPER,
        limit: 64,
        lengths: Lengths {
            bank: 512,
            rows: 64,
            marks: 4096,
            work: 0,
        },
        answer: Err(TableFault::BadMemory),
    },
];

const START: Branch = Branch { row: 0, number: 0 };

// The calls that a table without rows answers like this.
static ENTRIES: [Entry; 3] = [
    Entry {
        call: Call::Take(START),
        answer: Answer::Refused(TableFault::NoSuchBranch),
    },
    Entry {
        call: Call::GiveBack(START),
        answer: Answer::Refused(TableFault::NotOut),
    },
    Entry {
        call: Call::Verdict,
        answer: Answer::Open { waiting: 0, out: 0 },
    },
];

// Whether the table has no rows, and answers so.
fn is_empty(table: &mut Table) -> bool {
    let mut entries = ENTRIES;
    for entry in &mut entries {
        entry.answer = Answer::Holds;
    }
    table.make_all(&mut entries);
    entries == ENTRIES && table.counts() == NOTHING && table.verdict() != Verdict::Holds
}

#[test]
fn every_opening_comes_out(rt: HostRuntime) -> Result<(), Fail> {
    for case in &CASES {
        let mut memory = Memory::new(rt.alloc(), &case.lengths)?;
        let mut table = memory.table();
        assert!(rt; is_empty(&mut table), "before: {}", case.name);
        let answer = table.open(sheet_of(rt.alloc(), case.sheet)?, case.limit);
        assert_eq!(rt; answer, case.answer, "{}", case.name);
        assert_eq!(rt;
            is_empty(&mut table),
            answer.is_err(),
            "after: {}",
            case.name
        );
    }
    Ok(())
}
