//! Older rows that take a form, and those that don't.
use crate::memory::{Memory, ONE, THREE, TWO, Written, same_first, sheet_of};
use fault::TableFault;
use folding::takes;
use rows::at_or;
use std::alloc::Global;
use std::array;
use std::test::Fail;
use terms::{MOST_TERMS, Node, Sign};

// Two rows over `TERMS`, in a bank that other terms fill up to `filled`. The renaming is written as what x0, x1 and
// so on become.
struct Case {
    name: &'static str,
    sheet: &'static [u8],
    older: Written,
    form: Written,
    filled: u16,
    answer: Result<Option<&'static [u8]>, TableFault>,
}

// x0 to x4, c and d as 5 and 6, f(x0) to f(x2) as 7 to 9, g(f(x0), f(x0)) and g(f(x1), f(x2)) as 10 and 11,
// f(c) as 12, and h(x0) as 13
const TERMS: &[Node] = &[
    Node::Name(0),
    Node::Name(1),
    Node::Name(2),
    Node::Name(3),
    Node::Name(4),
    Node::Constant(10),
    Node::Constant(11),
    Node::Unary(1, 0),
    Node::Unary(1, 1),
    Node::Unary(1, 2),
    Node::Binary(2, 7, 7),
    Node::Binary(2, 8, 9),
    Node::Unary(1, 5),
    Node::Unary(3, 0),
];

static CASES: [Case; 32] = [
    Case {
        name: "x0 would have to become x0 and x1",
        sheet: TWO,
        older: Written {
            bits: true,
            vector: &[0, 0],
            conditions: &[],
        },
        form: Written {
            bits: true,
            vector: &[0, 1],
            conditions: &[],
        },
        filled: 0,
        answer: Ok(None),
    },
    Case {
        name: "two names become one",
        sheet: TWO,
        older: Written {
            bits: true,
            vector: &[0, 1],
            conditions: &[],
        },
        form: Written {
            bits: true,
            vector: &[3, 3],
            conditions: &[],
        },
        filled: 0,
        answer: Ok(Some(&[3, 3])),
    },
    Case {
        name: "two names change places",
        sheet: TWO,
        older: Written {
            bits: true,
            vector: &[0, 1],
            conditions: &[],
        },
        form: Written {
            bits: true,
            vector: &[1, 0],
            conditions: &[],
        },
        filled: 0,
        answer: Ok(Some(&[1, 0])),
    },
    Case {
        name: "the renaming goes from the older row to the form",
        sheet: THREE,
        older: Written {
            bits: true,
            vector: &[0, 1, 2],
            conditions: &[],
        },
        form: Written {
            bits: true,
            vector: &[1, 2, 0],
            conditions: &[],
        },
        filled: 0,
        answer: Ok(Some(&[1, 2, 0])),
    },
    Case {
        name: "a name becomes no other term",
        sheet: ONE,
        older: Written {
            bits: true,
            vector: &[0],
            conditions: &[],
        },
        form: Written {
            bits: true,
            vector: &[7],
            conditions: &[],
        },
        filled: 0,
        answer: Ok(None),
    },
    Case {
        name: "a term becomes no name",
        sheet: ONE,
        older: Written {
            bits: true,
            vector: &[7],
            conditions: &[],
        },
        form: Written {
            bits: true,
            vector: &[0],
            conditions: &[],
        },
        filled: 0,
        answer: Ok(None),
    },
    Case {
        name: "a name becomes no constant",
        sheet: ONE,
        older: Written {
            bits: true,
            vector: &[0],
            conditions: &[],
        },
        form: Written {
            bits: true,
            vector: &[5],
            conditions: &[],
        },
        filled: 0,
        answer: Ok(None),
    },
    Case {
        name: "a constant stays",
        sheet: ONE,
        older: Written {
            bits: true,
            vector: &[5],
            conditions: &[],
        },
        form: Written {
            bits: true,
            vector: &[5],
            conditions: &[],
        },
        filled: 0,
        answer: Ok(Some(&[])),
    },
    Case {
        name: "a constant becomes no other",
        sheet: ONE,
        older: Written {
            bits: true,
            vector: &[5],
            conditions: &[],
        },
        form: Written {
            bits: true,
            vector: &[6],
            conditions: &[],
        },
        filled: 0,
        answer: Ok(None),
    },
    Case {
        name: "a symbol becomes no other",
        sheet: ONE,
        older: Written {
            bits: true,
            vector: &[7],
            conditions: &[],
        },
        form: Written {
            bits: true,
            vector: &[13],
            conditions: &[],
        },
        filled: 0,
        answer: Ok(None),
    },
    Case {
        name: "one argument twice, and two arguments",
        sheet: ONE,
        older: Written {
            bits: true,
            vector: &[10],
            conditions: &[],
        },
        form: Written {
            bits: true,
            vector: &[11],
            conditions: &[],
        },
        filled: 0,
        answer: Ok(None),
    },
    Case {
        name: "two arguments, and one twice",
        sheet: ONE,
        older: Written {
            bits: true,
            vector: &[11],
            conditions: &[],
        },
        form: Written {
            bits: true,
            vector: &[10],
            conditions: &[],
        },
        filled: 0,
        answer: Ok(Some(&[0, 0, 0])),
    },
    Case {
        name: "other bits",
        sheet: ONE,
        older: Written {
            bits: true,
            vector: &[0],
            conditions: &[],
        },
        form: Written {
            bits: false,
            vector: &[0],
            conditions: &[],
        },
        filled: 0,
        answer: Ok(None),
    },
    Case {
        name: "a condition that nothing makes true",
        sheet: ONE,
        older: Written {
            bits: true,
            vector: &[0],
            conditions: &[(0, Sign::Equal, 5)],
        },
        form: Written {
            bits: true,
            vector: &[0],
            conditions: &[],
        },
        filled: 0,
        answer: Ok(None),
    },
    Case {
        name: "the same condition",
        sheet: ONE,
        older: Written {
            bits: true,
            vector: &[0],
            conditions: &[(0, Sign::Equal, 5)],
        },
        form: Written {
            bits: true,
            vector: &[0],
            conditions: &[(0, Sign::Equal, 5)],
        },
        filled: 0,
        answer: Ok(Some(&[0])),
    },
    Case {
        name: "the sides turned",
        sheet: ONE,
        older: Written {
            bits: true,
            vector: &[0],
            conditions: &[(0, Sign::Equal, 5)],
        },
        form: Written {
            bits: true,
            vector: &[1],
            conditions: &[(5, Sign::Equal, 1)],
        },
        filled: 0,
        answer: Ok(Some(&[1])),
    },
    Case {
        name: "the other sign",
        sheet: ONE,
        older: Written {
            bits: true,
            vector: &[0],
            conditions: &[(0, Sign::Equal, 5)],
        },
        form: Written {
            bits: true,
            vector: &[0],
            conditions: &[(0, Sign::Different, 5)],
        },
        filled: 0,
        answer: Ok(None),
    },
    Case {
        name: "a condition holds only after the renaming",
        sheet: TWO,
        older: Written {
            bits: true,
            vector: &[0, 1],
            conditions: &[(0, Sign::Equal, 1)],
        },
        form: Written {
            bits: true,
            vector: &[3, 3],
            conditions: &[],
        },
        filled: 0,
        answer: Ok(Some(&[3, 3])),
    },
    Case {
        name: "a condition fails only after the renaming",
        sheet: TWO,
        older: Written {
            bits: true,
            vector: &[0, 1],
            conditions: &[(0, Sign::Different, 1)],
        },
        form: Written {
            bits: true,
            vector: &[3, 3],
            conditions: &[],
        },
        filled: 0,
        answer: Ok(None),
    },
    Case {
        name: "it follows by two steps",
        sheet: TWO,
        older: Written {
            bits: true,
            vector: &[0, 8],
            conditions: &[(0, Sign::Equal, 8)],
        },
        form: Written {
            bits: true,
            vector: &[2, 7],
            conditions: &[(2, Sign::Equal, 4), (4, Sign::Equal, 7)],
        },
        filled: 0,
        answer: Ok(Some(&[2, 0])),
    },
    Case {
        name: "it follows for the same arguments",
        sheet: TWO,
        older: Written {
            bits: true,
            vector: &[0, 1],
            conditions: &[(7, Sign::Equal, 8)],
        },
        form: Written {
            bits: true,
            vector: &[1, 2],
            conditions: &[(1, Sign::Equal, 2)],
        },
        filled: 0,
        answer: Ok(Some(&[1, 2])),
    },
    Case {
        name: "it does not follow back",
        sheet: TWO,
        older: Written {
            bits: true,
            vector: &[0, 1],
            conditions: &[(0, Sign::Equal, 1)],
        },
        form: Written {
            bits: true,
            vector: &[1, 2],
            conditions: &[(8, Sign::Equal, 9)],
        },
        filled: 0,
        answer: Ok(None),
    },
    Case {
        name: "different values come from different arguments",
        sheet: TWO,
        older: Written {
            bits: true,
            vector: &[0, 1],
            conditions: &[(0, Sign::Different, 1)],
        },
        form: Written {
            bits: true,
            vector: &[1, 2],
            conditions: &[(8, Sign::Different, 9)],
        },
        filled: 0,
        answer: Ok(Some(&[1, 2])),
    },
    Case {
        name: "one of two conditions does not follow",
        sheet: TWO,
        older: Written {
            bits: true,
            vector: &[0, 1],
            conditions: &[(0, Sign::Equal, 5), (1, Sign::Equal, 5)],
        },
        form: Written {
            bits: true,
            vector: &[1, 2],
            conditions: &[(1, Sign::Equal, 5)],
        },
        filled: 0,
        answer: Ok(None),
    },
    Case {
        name: "a contradictory form, by itself",
        sheet: ONE,
        older: Written {
            bits: true,
            vector: &[0],
            conditions: &[
                (0, Sign::Equal, 5),
                (0, Sign::Different, 5),
                (7, Sign::Equal, 6),
            ],
        },
        form: Written {
            bits: true,
            vector: &[0],
            conditions: &[(0, Sign::Different, 0)],
        },
        filled: 0,
        answer: Ok(Some(&[0])),
    },
    Case {
        name: "a contradictory form, by the same arguments",
        sheet: ONE,
        older: Written {
            bits: true,
            vector: &[0],
            conditions: &[(0, Sign::Equal, 6)],
        },
        form: Written {
            bits: true,
            vector: &[1],
            conditions: &[(1, Sign::Equal, 5), (8, Sign::Different, 12)],
        },
        filled: 0,
        answer: Ok(Some(&[1])),
    },
    Case {
        name: "a contradictory form is not taken with another vector",
        sheet: TWO,
        older: Written {
            bits: true,
            vector: &[0, 0],
            conditions: &[],
        },
        form: Written {
            bits: true,
            vector: &[0, 1],
            conditions: &[(0, Sign::Different, 0)],
        },
        filled: 0,
        answer: Ok(None),
    },
    Case {
        name: "a condition with a name that the older vector lacks",
        sheet: ONE,
        older: Written {
            bits: true,
            vector: &[0],
            conditions: &[(1, Sign::Equal, 5)],
        },
        form: Written {
            bits: true,
            vector: &[0],
            conditions: &[(1, Sign::Equal, 5)],
        },
        filled: 0,
        answer: Err(TableFault::BadMemory),
    },
    Case {
        name: "a renamed term for which the bank has no room",
        sheet: ONE,
        older: Written {
            bits: true,
            vector: &[0],
            conditions: &[(13, Sign::Equal, 5)],
        },
        form: Written {
            bits: true,
            vector: &[1],
            conditions: &[],
        },
        filled: 512,
        answer: Err(TableFault::TermsExhausted),
    },
    Case {
        name: "room for just that term",
        sheet: ONE,
        older: Written {
            bits: true,
            vector: &[0],
            conditions: &[(13, Sign::Equal, 5)],
        },
        form: Written {
            bits: true,
            vector: &[1],
            conditions: &[(1, Sign::Different, 1)],
        },
        filled: 511,
        answer: Ok(Some(&[1])),
    },
    Case {
        name: "a full bank that has the renamed terms",
        sheet: ONE,
        older: Written {
            bits: true,
            vector: &[0],
            conditions: &[(7, Sign::Equal, 5)],
        },
        form: Written {
            bits: true,
            vector: &[1],
            conditions: &[(8, Sign::Equal, 5)],
        },
        filled: 512,
        answer: Ok(Some(&[1])),
    },
    Case {
        name: "a full bank, and no renaming: nothing is renamed",
        sheet: TWO,
        older: Written {
            bits: true,
            vector: &[0, 0],
            conditions: &[(13, Sign::Equal, 5)],
        },
        form: Written {
            bits: true,
            vector: &[1, 2],
            conditions: &[],
        },
        filled: 512,
        answer: Ok(None),
    },
];

// The whole renaming: names that the older vector lacks become x0.
fn whole(written: &[u8]) -> [u8; 32] {
    array::from_fn(|x| at_or(written, x, 0))
}

fn comes_out(heap: Global, case: &Case) -> Result<bool, Fail> {
    let sheet = sheet_of(heap, case.sheet)?;
    let mut memory = Memory::empty(heap);
    let mut labels = [0; MOST_TERMS];
    memory.load(TERMS)?;
    memory.fill(case.filled)?;
    let older = memory.row_of(&case.older);
    let newer = memory.row_of(&case.form);
    let before = memory.bank;
    let terms = memory.count.terms;
    let answer = takes(
        &sheet,
        &mut memory.bank,
        &mut memory.count,
        &older,
        &newer,
        &mut labels,
    );
    let found = answer.map(|renaming| renaming.map(|renaming| renaming.to));
    let same = found == case.answer.map(|written| written.map(whole));
    let kept = same_first(&before, &memory.bank, terms as usize);
    Ok(same && memory.count.terms == terms && kept)
}

#[test]
fn every_match_comes_out(rt: HostRuntime) -> Result<(), Fail> {
    // A loop beside each table: a trait for the tables' cases would be longer.
    for case in &CASES {
        assert!(rt; comes_out(rt.alloc(), case)?, "{}", case.name);
    }
    Ok(())
}
