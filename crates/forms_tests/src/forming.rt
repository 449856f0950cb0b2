//! Forms of rows at a height.
use crate::memory::{Memory, ONE, THREE, TWO, Written, same_first, same_row, sheet_of};
use fault::TableFault;
use folding::form;
use std::alloc::Global;
use std::test::Fail;
use terms::{Node, Sign};

// The form of a row over `terms`, in a bank that other terms fill up to `filled`: the answer's terms are numbered on
// through `more`, and the bank has `added` terms more than before.
struct Case {
    name: &'static str,
    sheet: &'static [u8],
    terms: &'static [Node],
    row: Written,
    filled: u16,
    height: u8,
    more: &'static [Node],
    form: Result<Written, TableFault>,
    added: u16,
}

// g(g(x1, f(x2)), f(x1)), which is number 5
const HIGH: &[Node] = &[
    Node::Name(1),
    Node::Name(2),
    Node::Unary(1, 1),
    Node::Binary(2, 0, 2),
    Node::Unary(1, 0),
    Node::Binary(2, 3, 4),
];

const HIGH_ROW: Written = Written {
    bits: true,
    vector: &[5],
    conditions: &[],
};

// x0 as number 6, g(x2, x0) as number 7
const CUT: &[Node] = &[Node::Name(0), Node::Binary(2, 1, 6)];

// all 32 names, f(x0) and f(f(x0)) as 32 and 33, f(x1) and f(f(x1)) as 34 and 35
const NAMES: &[Node] = &[
    Node::Name(0),
    Node::Name(1),
    Node::Name(2),
    Node::Name(3),
    Node::Name(4),
    Node::Name(5),
    Node::Name(6),
    Node::Name(7),
    Node::Name(8),
    Node::Name(9),
    Node::Name(10),
    Node::Name(11),
    Node::Name(12),
    Node::Name(13),
    Node::Name(14),
    Node::Name(15),
    Node::Name(16),
    Node::Name(17),
    Node::Name(18),
    Node::Name(19),
    Node::Name(20),
    Node::Name(21),
    Node::Name(22),
    Node::Name(23),
    Node::Name(24),
    Node::Name(25),
    Node::Name(26),
    Node::Name(27),
    Node::Name(28),
    Node::Name(29),
    Node::Name(30),
    Node::Name(31),
    Node::Unary(1, 0),
    Node::Unary(1, 32),
    Node::Unary(1, 1),
    Node::Unary(1, 34),
];

// every name
const ALL_NAMES: &[(u16, Sign, u16)] = &[
    (0, Sign::Equal, 1),
    (2, Sign::Equal, 3),
    (4, Sign::Equal, 5),
    (6, Sign::Equal, 7),
    (8, Sign::Equal, 9),
    (10, Sign::Equal, 11),
    (12, Sign::Equal, 13),
    (14, Sign::Equal, 15),
    (16, Sign::Equal, 17),
    (18, Sign::Equal, 19),
    (20, Sign::Equal, 21),
    (22, Sign::Equal, 23),
    (24, Sign::Equal, 25),
    (26, Sign::Equal, 27),
    (28, Sign::Equal, 29),
    (30, Sign::Equal, 31),
];

// every name but x31
const MOST_NAMES: &[(u16, Sign, u16)] = &[
    (0, Sign::Equal, 1),
    (2, Sign::Equal, 3),
    (4, Sign::Equal, 5),
    (6, Sign::Equal, 7),
    (8, Sign::Equal, 9),
    (10, Sign::Equal, 11),
    (12, Sign::Equal, 13),
    (14, Sign::Equal, 15),
    (16, Sign::Equal, 17),
    (18, Sign::Equal, 19),
    (20, Sign::Equal, 21),
    (22, Sign::Equal, 23),
    (24, Sign::Equal, 25),
    (26, Sign::Equal, 27),
    (28, Sign::Equal, 29),
    (30, Sign::Equal, 30),
];

const CRAMMED: Written = Written {
    bits: false,
    vector: &[33],
    conditions: ALL_NAMES,
};

// x0, x1 and eight constants
const CONSTANTS: &[Node] = &[
    Node::Name(0),
    Node::Name(1),
    Node::Constant(2),
    Node::Constant(3),
    Node::Constant(4),
    Node::Constant(5),
    Node::Constant(6),
    Node::Constant(7),
    Node::Constant(8),
    Node::Constant(9),
];

static CASES: [Case; 21] = [
    Case {
        name: "height 3: the term stays",
        sheet: ONE,
        terms: HIGH,
        row: HIGH_ROW,
        filled: 0,
        height: 3,
        more: &[],
        form: Ok(HIGH_ROW),
        added: 0,
    },
    Case {
        name: "height 2: one cut, g(g(x1, x0), f(x1))",
        sheet: ONE,
        terms: HIGH,
        row: HIGH_ROW,
        filled: 0,
        height: 2,
        more: &[Node::Name(0), Node::Binary(2, 0, 6), Node::Binary(2, 7, 4)],
        form: Ok(Written {
            bits: true,
            vector: &[8],
            conditions: &[],
        }),
        added: 3,
    },
    Case {
        name: "height 1: three cuts; x2 is freed and given out again",
        sheet: ONE,
        terms: HIGH,
        row: HIGH_ROW,
        filled: 0,
        height: 1,
        more: CUT,
        form: Ok(Written {
            bits: true,
            vector: &[7],
            conditions: &[],
        }),
        added: 5,
    },
    Case {
        name: "height 0: g(x2, x0) is cut too, and x1 is free",
        sheet: ONE,
        terms: HIGH,
        row: HIGH_ROW,
        filled: 0,
        height: 0,
        more: &[],
        form: Ok(Written {
            bits: true,
            vector: &[0],
            conditions: &[],
        }),
        added: 5,
    },
    Case {
        name: "room for exactly the terms that the cuts make",
        sheet: ONE,
        terms: HIGH,
        row: HIGH_ROW,
        filled: 507,
        height: 1,
        more: CUT,
        form: Ok(Written {
            bits: true,
            vector: &[7],
            conditions: &[],
        }),
        added: 5,
    },
    Case {
        name: "room for one less",
        sheet: ONE,
        terms: HIGH,
        row: HIGH_ROW,
        filled: 508,
        height: 1,
        more: &[],
        form: Err(TableFault::TermsExhausted),
        added: 0,
    },
    Case {
        name: "a full bank, and a name that is not in it",
        sheet: ONE,
        terms: HIGH,
        row: HIGH_ROW,
        filled: 512,
        height: 1,
        more: &[],
        form: Err(TableFault::TermsExhausted),
        added: 0,
    },
    Case {
        name: "a full bank, and no cut",
        sheet: ONE,
        terms: HIGH,
        row: HIGH_ROW,
        filled: 512,
        height: 3,
        more: &[],
        form: Ok(HIGH_ROW),
        added: 0,
    },
    Case {
        name: "all names stand in the row",
        sheet: ONE,
        terms: NAMES,
        row: CRAMMED,
        filled: 0,
        height: 1,
        more: &[],
        form: Err(TableFault::NamesExhausted),
        added: 0,
    },
    Case {
        name: "all names and a full bank: the name is sought first",
        sheet: ONE,
        terms: NAMES,
        row: CRAMMED,
        filled: 512,
        height: 1,
        more: &[],
        form: Err(TableFault::NamesExhausted),
        added: 0,
    },
    Case {
        name: "all names, and no cut: conditions without their names go",
        sheet: ONE,
        terms: NAMES,
        row: CRAMMED,
        filled: 0,
        height: 2,
        more: &[],
        form: Ok(Written {
            bits: false,
            vector: &[33],
            conditions: &[],
        }),
        added: 0,
    },
    Case {
        name: "one name is free, the last",
        sheet: ONE,
        terms: NAMES,
        row: Written {
            bits: true,
            vector: &[33],
            conditions: MOST_NAMES,
        },
        filled: 0,
        height: 1,
        more: &[Node::Unary(1, 31)],
        form: Ok(Written {
            bits: true,
            vector: &[36],
            conditions: &[],
        }),
        added: 1,
    },
    Case {
        name: "the last name goes to the first of two cuts",
        sheet: TWO,
        terms: NAMES,
        row: Written {
            bits: true,
            vector: &[33, 35],
            conditions: MOST_NAMES,
        },
        filled: 0,
        height: 1,
        more: &[],
        form: Err(TableFault::NamesExhausted),
        added: 0,
    },
    Case {
        name: "three arguments: the first that is one lower, and x1 is free again",
        sheet: ONE,
        terms: &[
            Node::Name(0),
            Node::Name(1),
            Node::Name(2),
            Node::Unary(1, 1),
            Node::Unary(1, 2),
            Node::Ternary(3, 0, 3, 4),
        ],
        row: Written {
            bits: false,
            vector: &[5],
            conditions: &[],
        },
        filled: 0,
        height: 1,
        more: &[Node::Name(3), Node::Ternary(3, 0, 6, 1)],
        form: Ok(Written {
            bits: false,
            vector: &[7],
            conditions: &[],
        }),
        added: 3,
    },
    Case {
        name: "a cut is made in every term and condition; then x0 stands in no vector term",
        sheet: THREE,
        terms: &[
            Node::Name(0),
            Node::Unary(1, 0),
            Node::Unary(1, 1),
            Node::Constant(10),
            Node::Unary(4, 1),
        ],
        row: Written {
            bits: true,
            vector: &[3, 2, 1],
            conditions: &[
                (1, Sign::Equal, 3),
                (0, Sign::Equal, 3),
                (3, Sign::Different, 2),
                (4, Sign::Equal, 1),
            ],
        },
        filled: 0,
        height: 1,
        more: &[Node::Name(1), Node::Unary(1, 5), Node::Unary(4, 5)],
        form: Ok(Written {
            bits: true,
            vector: &[3, 6, 5],
            conditions: &[
                (5, Sign::Equal, 3),
                (3, Sign::Different, 6),
                (7, Sign::Equal, 5),
            ],
        }),
        added: 3,
    },
    Case {
        name: "a name that stands in a condition alone is not free",
        sheet: ONE,
        terms: &[
            Node::Name(0),
            Node::Name(1),
            Node::Constant(10),
            Node::Unary(1, 1),
            Node::Unary(1, 3),
        ],
        row: Written {
            bits: true,
            vector: &[4],
            conditions: &[(0, Sign::Equal, 2)],
        },
        filled: 0,
        height: 1,
        more: &[Node::Name(2), Node::Unary(1, 5)],
        form: Ok(Written {
            bits: true,
            vector: &[6],
            conditions: &[],
        }),
        added: 2,
    },
    Case {
        name: "a term of the vector that is cut itself",
        sheet: TWO,
        terms: &[Node::Constant(10), Node::Unary(1, 0), Node::Name(0)],
        row: Written {
            bits: true,
            vector: &[1, 1],
            conditions: &[(1, Sign::Equal, 0), (2, Sign::Equal, 0)],
        },
        filled: 0,
        height: 0,
        more: &[Node::Name(1)],
        form: Ok(Written {
            bits: true,
            vector: &[3, 3],
            conditions: &[(3, Sign::Equal, 0)],
        }),
        added: 1,
    },
    Case {
        name: "conditions too high go, on either side",
        sheet: TWO,
        terms: &[
            Node::Name(0),
            Node::Name(1),
            Node::Unary(1, 0),
            Node::Unary(1, 2),
        ],
        row: Written {
            bits: true,
            vector: &[0, 1],
            conditions: &[
                (3, Sign::Equal, 1),
                (1, Sign::Different, 3),
                (2, Sign::Equal, 1),
            ],
        },
        filled: 0,
        height: 1,
        more: &[],
        form: Ok(Written {
            bits: true,
            vector: &[0, 1],
            conditions: &[(2, Sign::Equal, 1)],
        }),
        added: 0,
    },
    Case {
        name: "conditions with a name that stands in no vector term go; those without names stay",
        sheet: TWO,
        terms: &[
            Node::Name(0),
            Node::Name(1),
            Node::Name(31),
            Node::Unary(1, 2),
            Node::Constant(10),
        ],
        row: Written {
            bits: true,
            vector: &[0, 1],
            conditions: &[
                (2, Sign::Equal, 0),
                (0, Sign::Equal, 3),
                (4, Sign::Different, 4),
                (3, Sign::Different, 3),
            ],
        },
        filled: 0,
        height: 4,
        more: &[],
        form: Ok(Written {
            bits: true,
            vector: &[0, 1],
            conditions: &[(4, Sign::Different, 4)],
        }),
        added: 0,
    },
    Case {
        name: "a repeated condition goes; one with its sides or its sign turned stays",
        sheet: TWO,
        terms: &[Node::Name(0), Node::Name(1)],
        row: Written {
            bits: true,
            vector: &[0, 1],
            conditions: &[
                (0, Sign::Equal, 1),
                (1, Sign::Equal, 0),
                (0, Sign::Equal, 1),
                (0, Sign::Different, 1),
                (1, Sign::Equal, 0),
                (0, Sign::Different, 1),
            ],
        },
        filled: 0,
        height: 0,
        more: &[],
        form: Ok(Written {
            bits: true,
            vector: &[0, 1],
            conditions: &[
                (0, Sign::Equal, 1),
                (1, Sign::Equal, 0),
                (0, Sign::Different, 1),
            ],
        }),
        added: 0,
    },
    Case {
        name: "sixteen stay, counted after the others went",
        sheet: ONE,
        terms: CONSTANTS,
        row: Written {
            bits: true,
            vector: &[0],
            conditions: &[
                (1, Sign::Equal, 1),
                (0, Sign::Equal, 2),
                (0, Sign::Equal, 2),
                (0, Sign::Equal, 3),
                (0, Sign::Equal, 4),
                (0, Sign::Equal, 5),
                (0, Sign::Equal, 6),
                (0, Sign::Equal, 7),
                (0, Sign::Equal, 8),
                (0, Sign::Equal, 9),
                (0, Sign::Different, 2),
                (0, Sign::Different, 3),
                (0, Sign::Different, 4),
                (0, Sign::Different, 5),
                (0, Sign::Different, 6),
                (0, Sign::Different, 7),
                (0, Sign::Different, 8),
                (0, Sign::Different, 9),
                (2, Sign::Different, 0),
                (3, Sign::Different, 0),
                (4, Sign::Different, 0),
                (5, Sign::Different, 0),
            ],
        },
        filled: 0,
        height: 0,
        more: &[],
        form: Ok(Written {
            bits: true,
            vector: &[0],
            conditions: &[
                (0, Sign::Equal, 2),
                (0, Sign::Equal, 3),
                (0, Sign::Equal, 4),
                (0, Sign::Equal, 5),
                (0, Sign::Equal, 6),
                (0, Sign::Equal, 7),
                (0, Sign::Equal, 8),
                (0, Sign::Equal, 9),
                (0, Sign::Different, 2),
                (0, Sign::Different, 3),
                (0, Sign::Different, 4),
                (0, Sign::Different, 5),
                (0, Sign::Different, 6),
                (0, Sign::Different, 7),
                (0, Sign::Different, 8),
                (0, Sign::Different, 9),
            ],
        }),
        added: 0,
    },
];

fn comes_out(heap: Global, case: &Case) -> Result<bool, Fail> {
    let sheet = sheet_of(heap, case.sheet)?;
    let mut memory = Memory::empty(heap);
    memory.load(case.terms)?;
    memory.fill(case.filled)?;
    let row = memory.row_of(&case.row);
    let before = memory.bank;
    let terms = memory.count.terms;
    let answer = form(
        &sheet,
        &mut memory.bank,
        &mut memory.count,
        &row,
        case.height,
    );
    let after = terms.saturating_add(case.added);
    if memory.count.terms != after || !same_first(&before, &memory.bank, terms as usize) {
        return Ok(false);
    }
    // the form's terms are in the bank
    memory.load(case.more)?;
    // By a match, since one row may be written with other spare places.
    let same = match (answer, &case.form) {
        (Ok(made), Ok(written)) => same_row(&sheet, &made, &memory.row_of(written)),
        (Err(found), Err(fault)) => found == *fault,
        _ => false,
    };
    Ok(same && memory.count.terms == after)
}

#[test]
fn every_form_comes_out(rt: HostRuntime) -> Result<(), Fail> {
    // A loop beside each table: a trait for the tables' cases would be longer.
    for case in &CASES {
        assert!(rt; comes_out(rt.alloc(), case)?, "{}", case.name);
    }
    Ok(())
}
