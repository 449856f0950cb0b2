//! Lists of calls, each with its answer by the rules.
use crate::memory::{HOPPER, Memory, NOTHING, WHOLE, sheet_of};
use fault::TableFault;
use rules::{Answer, Branch, Call, Counts, Entry, Mark};
use std::alloc::Global;
use std::test::Fail;
use table::{Table, always_stands};

const FIRST: Branch = Branch { row: 0, number: 0 };

const SECOND: Branch = Branch { row: 0, number: 1 };

const THIRD: Branch = Branch { row: 1, number: 0 };

const FOURTH: Branch = Branch { row: 1, number: 1 };

// A row of the hopper's sheet has the branches 0 and 1.
const ABSENT: Branch = Branch { row: 0, number: 2 };

// What stands in the place of an answer before the calls.
const UNANSWERED: Answer = Answer::Refused(TableFault::BadMemory);

// The same is asked of the input twice, so the branches 1 and 2 are impossible. They consider the input's name and s0.
const TWICE: &[u8] =
    b"F\x00IT\x01\x00\x00\x00\x00T\x02\x00\x00\x00\x00Q\x00\x01Q\x00\x01L\x00\x00\x00V\x00H\x00E";

const LAST: Branch = Branch { row: 0, number: 3 };

// The sheet is worked through, with all that can be refused on the way.
const WORKED: &[(Call, Answer)] = &[
    (Call::Verdict, Answer::Open { waiting: 2, out: 0 }),
    (
        Call::Take(ABSENT),
        Answer::Refused(TableFault::NoSuchBranch),
    ),
    (Call::Take(THIRD), Answer::Refused(TableFault::NoSuchBranch)),
    (Call::GiveBack(ABSENT), Answer::Refused(TableFault::NotOut)),
    (Call::Strike(FIRST), Answer::Refused(TableFault::NotOut)),
    (
        Call::Merge {
            ticket: ABSENT,
            target: 9,
            height: 9,
        },
        Answer::Refused(TableFault::NotOut),
    ),
    (
        Call::Keep {
            ticket: THIRD,
            height: 9,
        },
        Answer::Refused(TableFault::NotOut),
    ),
    (Call::Take(FIRST), Answer::Taken(FIRST)),
    (Call::Take(FIRST), Answer::Refused(TableFault::NotWaiting)),
    (Call::Verdict, Answer::Open { waiting: 1, out: 1 }),
    (Call::GiveBack(FIRST), Answer::Done),
    (Call::GiveBack(FIRST), Answer::Refused(TableFault::NotOut)),
    (Call::Take(FIRST), Answer::Taken(FIRST)),
    (
        Call::Strike(FIRST),
        Answer::Refused(TableFault::Satisfiable),
    ),
    (
        Call::Merge {
            ticket: FIRST,
            target: 1,
            height: 2,
        },
        Answer::Refused(TableFault::NoSuchBranch),
    ),
    (
        Call::Merge {
            ticket: FIRST,
            target: 0,
            height: 2,
        },
        Answer::Refused(TableFault::HeightAboveBound),
    ),
    (
        Call::Merge {
            ticket: FIRST,
            target: 0,
            height: 1,
        },
        Answer::Done,
    ),
    (Call::GiveBack(FIRST), Answer::Refused(TableFault::NotOut)),
    (Call::Take(FIRST), Answer::Refused(TableFault::NotWaiting)),
    (Call::Take(SECOND), Answer::Taken(SECOND)),
    (
        Call::Strike(SECOND),
        Answer::Refused(TableFault::Satisfiable),
    ),
    (
        Call::Merge {
            ticket: SECOND,
            target: 0,
            height: 1,
        },
        Answer::Refused(TableFault::NoRenaming),
    ),
    (
        Call::Keep {
            ticket: SECOND,
            height: 2,
        },
        Answer::Refused(TableFault::HeightAboveBound),
    ),
    (
        Call::Keep {
            ticket: SECOND,
            height: 0,
        },
        Answer::Refused(TableFault::UnsafeForm),
    ),
    (
        Call::Keep {
            ticket: SECOND,
            height: 1,
        },
        Answer::Done,
    ),
    (
        Call::Keep {
            ticket: SECOND,
            height: 1,
        },
        Answer::Refused(TableFault::NotOut),
    ),
    (Call::Verdict, Answer::Open { waiting: 2, out: 0 }),
    (Call::Take(THIRD), Answer::Taken(THIRD)),
    (Call::Take(FOURTH), Answer::Taken(FOURTH)),
    (Call::Verdict, Answer::Open { waiting: 0, out: 2 }),
    (
        Call::Merge {
            ticket: FOURTH,
            target: 0,
            height: 1,
        },
        Answer::Refused(TableFault::NoRenaming),
    ),
    (
        Call::Merge {
            ticket: FOURTH,
            target: 1,
            height: 1,
        },
        Answer::Done,
    ),
    (Call::Verdict, Answer::Open { waiting: 0, out: 1 }),
    (
        Call::Merge {
            ticket: THIRD,
            target: 1,
            height: 1,
        },
        Answer::Done,
    ),
    (Call::Verdict, Answer::Holds),
    (Call::Strike(THIRD), Answer::Refused(TableFault::NotOut)),
    (Call::Verdict, Answer::Holds),
];

// With a limit of one row.
const LIMITED: &[(Call, Answer)] = &[
    (Call::Take(SECOND), Answer::Taken(SECOND)),
    (
        Call::Keep {
            ticket: SECOND,
            height: 0,
        },
        Answer::Refused(TableFault::UnsafeForm),
    ),
    (
        Call::Keep {
            ticket: SECOND,
            height: 1,
        },
        Answer::Refused(TableFault::RowLimit),
    ),
    (Call::GiveBack(SECOND), Answer::Done),
    (Call::Verdict, Answer::Open { waiting: 2, out: 0 }),
];

// Of joins, the most that there may be.
const STRUCK: &[(Call, Answer)] = &[
    (Call::Verdict, Answer::Open { waiting: 4, out: 0 }),
    (Call::Take(SECOND), Answer::Taken(SECOND)),
    (Call::Strike(SECOND), Answer::Joined(1)),
    (Call::Take(ABSENT), Answer::Taken(ABSENT)),
    (Call::Strike(ABSENT), Answer::Joined(1)),
    (Call::Take(FIRST), Answer::Taken(FIRST)),
    (
        Call::Strike(FIRST),
        Answer::Refused(TableFault::Satisfiable),
    ),
    (
        Call::Merge {
            ticket: FIRST,
            target: 0,
            height: 0,
        },
        Answer::Done,
    ),
    (Call::Take(LAST), Answer::Taken(LAST)),
    (
        Call::Merge {
            ticket: LAST,
            target: 0,
            height: 0,
        },
        Answer::Done,
    ),
    (Call::Verdict, Answer::Holds),
];

// An opening with a list of calls; then what the table tells of its rows, branches for each row and bound, of all
// counts and of some marks.
struct Case {
    name: &'static str,
    sheet: &'static [u8],
    limit: u8,
    list: &'static [(Call, Answer)],
    opened: Result<(), TableFault>,
    sizes: (u8, u8, u8),
    counts: Counts,
    marks: [(Branch, Option<Mark>); 4],
}

static CASES: [Case; 4] = [
    Case {
        name: "worked through",
        sheet: HOPPER,
        limit: 64,
        list: WORKED,
        opened: Ok(()),
        sizes: (2, 2, 1),
        counts: Counts {
            rows: 2,
            kept: 1,
            merged: 3,
            struck: 0,
            waiting: 0,
            out: 0,
        },
        marks: [
            (FIRST, Some(Mark::Merged)),
            (SECOND, Some(Mark::Kept)),
            (FOURTH, Some(Mark::Merged)),
            (ABSENT, None),
        ],
    },
    Case {
        name: "one row at most",
        sheet: HOPPER,
        limit: 1,
        list: LIMITED,
        opened: Ok(()),
        sizes: (1, 2, 1),
        counts: Counts {
            rows: 1,
            kept: 0,
            merged: 0,
            struck: 0,
            waiting: 2,
            out: 0,
        },
        marks: [
            (FIRST, Some(Mark::Waiting)),
            (SECOND, Some(Mark::Waiting)),
            (THIRD, None),
            (ABSENT, None),
        ],
    },
    Case {
        name: "branches that are impossible",
        sheet: TWICE,
        limit: 64,
        list: STRUCK,
        opened: Ok(()),
        sizes: (1, 4, 0),
        counts: Counts {
            rows: 1,
            kept: 0,
            merged: 2,
            struck: 2,
            waiting: 0,
            out: 0,
        },
        marks: [
            (FIRST, Some(Mark::Merged)),
            (SECOND, Some(Mark::Struck)),
            (ABSENT, Some(Mark::Struck)),
            (THIRD, None),
        ],
    },
    Case {
        name: "an opening that is refused after one that was not",
        sheet: HOPPER,
        limit: 65,
        list: &[(Call::Take(FIRST), UNANSWERED)],
        opened: Err(TableFault::BadMemory),
        sizes: (0, 0, 0),
        counts: NOTHING,
        marks: [(FIRST, None), (SECOND, None), (THIRD, None), (ABSENT, None)],
    },
];

fn tells(table: &Table, case: &Case) -> bool {
    (table.rows(), table.branches_per_row(), table.bound()) == case.sizes
        && table.counts() == case.counts
        && case
            .marks
            .iter()
            .all(|(branch, mark)| table.mark(*branch) == *mark)
}

fn unanswered(heap: Global, list: &[(Call, Answer)]) -> Result<Vec<Entry>, Fail> {
    let mut entries = Vec::new(heap);
    for (call, _) in list {
        entries.push(Entry {
            call: *call,
            answer: UNANSWERED,
        })?;
    }
    Ok(entries)
}

fn is_as_said(answer: Answer, said: Answer) -> bool {
    match (answer, said) {
        (Answer::Joined(joins), Answer::Joined(most)) => joins <= most,
        _ => answer == said,
    }
}

// The place in the list of the first call that was changed or has another answer, if any.
fn first_other(entries: &[Entry], list: &[(Call, Answer)]) -> Option<usize> {
    entries.iter().zip(list).position(|(entry, (call, said))| entry.call != *call
        || !is_as_said(entry.answer, *said))
}

#[test]
fn every_list_is_answered(rt: HostRuntime) -> Result<(), Fail> {
    let mut memory = Memory::new(rt.alloc(), &WHOLE)?;
    let mut table = memory.table();
    for case in &CASES {
        let sheet = sheet_of(rt.alloc(), case.sheet)?;
        let mut entries = unanswered(rt.alloc(), case.list)?;
        let opened = table.answer_all(sheet, case.limit, entries.as_mut_slice());
        assert_eq!(rt; opened, case.opened, "{}", case.name);
        assert_eq!(rt;
            first_other(entries.as_slice(), case.list),
            None,
            "{}",
            case.name
        );
        assert!(rt; tells(&table, case), "{}", case.name);
    }
    always_stands();
    Ok(())
}
