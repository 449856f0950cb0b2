//! Row 0, candidates, and how a sheet's first steps go on: their forms, whether these are safe, and whether row 0
//! takes them.
use crate::memory::{Memory, Written, same_first, same_row, sheet_of};
use candidates::{branch_conditions, candidate, first_row, is_safe};
use fault::TableFault;
use folding::{form, takes};
use std::alloc::Global;
use std::test::Fail;
use terms::{MOST_TERMS, Node, Sign};

// One bit that the input raises for good where it is c; as it does, reading 1 becomes f of reading 0, as which it is
// claimed while the bit is raised.
const HOPPER: &[u8] =
    b"F\x00F\x01B\x00R\x00\x00R\x00\x01IT\x00\x00\x00\x00\x00T\x00\x01\x00\x00\x00T\x01\x00\x00\x00\x00T\x02\x00\x00\x00\x00T\x02\x01\x00\x00\x00Q\x02\x03C\x01\x04L\x01\x00\x00L\x02\x00\x00L\x06\x00\x01L\x04\x00\x00L\x03\x00\x00L\x06\x03\x04K\x00\x04\x00\x00K\x00\x01\x00\x00K\x01\x01\x00\x01N\x00\x02M\x01\x02V\x05H\x01E";

// A bit that starts raised, and must not be.
const BROKEN: &[u8] = b"B\x01L\x01\x00\x00L\x04\x00\x00V\x01H\x00E";

// Readings that start as c and as start value 7.
const STARTS: &[u8] = b"F\x00B\x01R\x01\x00R\x00\x07L\x00\x00\x00V\x00H\x00E";

// Two inputs, each asked whether it is c; reading 0 becomes the second, reading 1 the old reading 0.
const INPUTS: &[u8] =
    b"F\x00R\x00\x00R\x00\x01IIT\x01\x00\x00\x00\x00T\x01\x01\x00\x00\x00T\x02\x00\x00\x00\x00T\x00\x00\x00\x00\x00Q\x00\x02Q\x01\x02L\x00\x00\x00K\x00\x01\x00\x00K\x00\x03\x00\x00M\x00\x00M\x01\x01V\x00H\x00E";

// Row 0 over `terms`, which are all that the bank then has, and whether it is safe.
struct Start {
    name: &'static str,
    sheet: &'static [u8],
    terms: &'static [Node],
    row: Written,
    safe: bool,
}

static STARTING: [Start; 3] = [
    Start {
        name: "a name for each start value",
        sheet: HOPPER,
        terms: &[Node::Name(0), Node::Name(1)],
        row: Written {
            bits: false,
            vector: &[0, 1],
            conditions: &[],
        },
        safe: true,
    },
    Start {
        name: "a constant and the last start value",
        sheet: STARTS,
        terms: &[Node::Constant(0), Node::Name(7)],
        row: Written {
            bits: true,
            vector: &[0, 1],
            conditions: &[],
        },
        safe: true,
    },
    Start {
        name: "no reading, and a bit that breaks the invariant",
        sheet: BROKEN,
        terms: &[],
        row: Written {
            bits: true,
            vector: &[],
            conditions: &[],
        },
        safe: false,
    },
];

// The candidate of a row over `terms` on a branch, in a bank that other terms fill up to `filled`: its terms are
// numbered on through `more`, and the bank has `added` terms more than before.
struct Branch {
    name: &'static str,
    sheet: &'static [u8],
    terms: &'static [Node],
    row: Written,
    filled: u16,
    branch: u8,
    more: &'static [Node],
    candidate: Result<Written, TableFault>,
    added: u16,
}

// all names
const NAMES: &[Node] = &[
    Node::Name(0),
    Node::Name(1),
    Node::Name(2),
    Node::Name(3),
    Node::Name(4),
    Node::Name(5),
    Node::Name(6),
    Node::Name(7),
    Node::Name(8),
    Node::Name(9),
    Node::Name(10),
    Node::Name(11),
    Node::Name(12),
    Node::Name(13),
    Node::Name(14),
    Node::Name(15),
    Node::Name(16),
    Node::Name(17),
    Node::Name(18),
    Node::Name(19),
    Node::Name(20),
    Node::Name(21),
    Node::Name(22),
    Node::Name(23),
    Node::Name(24),
    Node::Name(25),
    Node::Name(26),
    Node::Name(27),
    Node::Name(28),
    Node::Name(29),
    Node::Name(30),
    Node::Name(31),
];

static BRANCHES: [Branch; 13] = [
    Branch {
        name: "row 0 and no raise",
        sheet: HOPPER,
        terms: &[Node::Name(0), Node::Name(1)],
        row: Written {
            bits: false,
            vector: &[0, 1],
            conditions: &[],
        },
        filled: 0,
        branch: 0,
        more: &[Node::Name(2), Node::Constant(0)],
        candidate: Ok(Written {
            bits: false,
            vector: &[0, 1],
            conditions: &[(2, Sign::Different, 3)],
        }),
        added: 2,
    },
    Branch {
        name: "row 0 and a raise",
        sheet: HOPPER,
        terms: &[Node::Name(0), Node::Name(1)],
        row: Written {
            bits: false,
            vector: &[0, 1],
            conditions: &[],
        },
        filled: 0,
        branch: 1,
        more: &[Node::Name(2), Node::Constant(0), Node::Unary(1, 0)],
        candidate: Ok(Written {
            bits: true,
            vector: &[0, 4],
            conditions: &[(2, Sign::Equal, 3)],
        }),
        added: 3,
    },
    Branch {
        name: "the raised bit stays, and the free name is x1",
        sheet: HOPPER,
        terms: &[Node::Name(0), Node::Unary(1, 0)],
        row: Written {
            bits: true,
            vector: &[0, 1],
            conditions: &[],
        },
        filled: 0,
        branch: 0,
        more: &[Node::Name(1), Node::Constant(0)],
        candidate: Ok(Written {
            bits: true,
            vector: &[0, 1],
            conditions: &[(2, Sign::Different, 3)],
        }),
        added: 2,
    },
    Branch {
        name: "there are two branches",
        sheet: HOPPER,
        terms: &[Node::Name(0), Node::Name(1)],
        row: Written {
            bits: false,
            vector: &[0, 1],
            conditions: &[],
        },
        filled: 0,
        branch: 2,
        more: &[],
        candidate: Err(TableFault::NoSuchBranch),
        added: 0,
    },
    Branch {
        name: "room for just the three terms",
        sheet: HOPPER,
        terms: &[Node::Name(0), Node::Name(1)],
        row: Written {
            bits: false,
            vector: &[0, 1],
            conditions: &[],
        },
        filled: 509,
        branch: 1,
        more: &[Node::Name(2), Node::Constant(0), Node::Unary(1, 0)],
        candidate: Ok(Written {
            bits: true,
            vector: &[0, 4],
            conditions: &[(2, Sign::Equal, 3)],
        }),
        added: 3,
    },
    Branch {
        name: "room for one term",
        sheet: HOPPER,
        terms: &[Node::Name(0), Node::Name(1)],
        row: Written {
            bits: false,
            vector: &[0, 1],
            conditions: &[],
        },
        filled: 511,
        branch: 1,
        more: &[],
        candidate: Err(TableFault::TermsExhausted),
        added: 0,
    },
    Branch {
        name: "names between and behind x0 and x2: question 0 is true",
        sheet: INPUTS,
        terms: &[Node::Name(0), Node::Name(2)],
        row: Written {
            bits: false,
            vector: &[0, 1],
            conditions: &[],
        },
        filled: 0,
        branch: 1,
        more: &[Node::Name(1), Node::Name(3), Node::Constant(0)],
        candidate: Ok(Written {
            bits: false,
            vector: &[3, 0],
            conditions: &[(2, Sign::Equal, 4), (3, Sign::Different, 4)],
        }),
        added: 3,
    },
    Branch {
        name: "names between and behind x0 and x2: question 1 is true",
        sheet: INPUTS,
        terms: &[Node::Name(0), Node::Name(2)],
        row: Written {
            bits: false,
            vector: &[0, 1],
            conditions: &[],
        },
        filled: 0,
        branch: 2,
        more: &[Node::Name(1), Node::Name(3), Node::Constant(0)],
        candidate: Ok(Written {
            bits: false,
            vector: &[3, 0],
            conditions: &[(2, Sign::Different, 4), (3, Sign::Equal, 4)],
        }),
        added: 3,
    },
    Branch {
        name: "a name of a condition is not free, and the row keeps its condition behind",
        sheet: INPUTS,
        terms: &[Node::Name(0), Node::Name(2), Node::Name(1)],
        row: Written {
            bits: false,
            vector: &[0, 1],
            conditions: &[(2, Sign::Equal, 0)],
        },
        filled: 0,
        branch: 3,
        more: &[Node::Name(3), Node::Name(4), Node::Constant(0)],
        candidate: Ok(Written {
            bits: false,
            vector: &[4, 0],
            conditions: &[
                (3, Sign::Equal, 5),
                (4, Sign::Equal, 5),
                (2, Sign::Equal, 0),
            ],
        }),
        added: 3,
    },
    Branch {
        name: "there are four branches",
        sheet: INPUTS,
        terms: &[Node::Name(0), Node::Name(2)],
        row: Written {
            bits: false,
            vector: &[0, 1],
            conditions: &[],
        },
        filled: 0,
        branch: 4,
        more: &[],
        candidate: Err(TableFault::NoSuchBranch),
        added: 0,
    },
    Branch {
        name: "one name is free, and two inputs want one",
        sheet: INPUTS,
        terms: NAMES,
        row: Written {
            bits: false,
            vector: &[0, 1],
            conditions: &[
                (0, Sign::Equal, 1),
                (2, Sign::Equal, 3),
                (4, Sign::Equal, 5),
                (6, Sign::Equal, 7),
                (8, Sign::Equal, 9),
                (10, Sign::Equal, 11),
                (12, Sign::Equal, 13),
                (14, Sign::Equal, 15),
                (16, Sign::Equal, 17),
                (18, Sign::Equal, 19),
                (20, Sign::Equal, 21),
                (22, Sign::Equal, 23),
                (24, Sign::Equal, 25),
                (26, Sign::Equal, 27),
                (28, Sign::Equal, 29),
                (30, Sign::Equal, 30),
            ],
        },
        filled: 0,
        branch: 0,
        more: &[],
        candidate: Err(TableFault::NamesExhausted),
        added: 0,
    },
    Branch {
        name: "one name is free, and one input wants one",
        sheet: HOPPER,
        terms: NAMES,
        row: Written {
            bits: false,
            vector: &[0, 1],
            conditions: &[
                (0, Sign::Equal, 1),
                (2, Sign::Equal, 3),
                (4, Sign::Equal, 5),
                (6, Sign::Equal, 7),
                (8, Sign::Equal, 9),
                (10, Sign::Equal, 11),
                (12, Sign::Equal, 13),
                (14, Sign::Equal, 15),
                (16, Sign::Equal, 17),
                (18, Sign::Equal, 19),
                (20, Sign::Equal, 21),
                (22, Sign::Equal, 23),
                (24, Sign::Equal, 25),
                (26, Sign::Equal, 27),
                (28, Sign::Equal, 29),
                (30, Sign::Equal, 30),
            ],
        },
        filled: 0,
        branch: 0,
        more: &[Node::Constant(0)],
        candidate: Ok(Written {
            bits: false,
            vector: &[0, 1],
            conditions: &[
                (31, Sign::Different, 32),
                (0, Sign::Equal, 1),
                (2, Sign::Equal, 3),
                (4, Sign::Equal, 5),
                (6, Sign::Equal, 7),
                (8, Sign::Equal, 9),
                (10, Sign::Equal, 11),
                (12, Sign::Equal, 13),
                (14, Sign::Equal, 15),
                (16, Sign::Equal, 17),
                (18, Sign::Equal, 19),
                (20, Sign::Equal, 21),
                (22, Sign::Equal, 23),
                (24, Sign::Equal, 25),
                (26, Sign::Equal, 27),
                (28, Sign::Equal, 29),
                (30, Sign::Equal, 30),
            ],
        }),
        added: 1,
    },
    Branch {
        name: "17 conditions are no row's",
        sheet: HOPPER,
        terms: &[Node::Name(0), Node::Name(1)],
        row: Written {
            bits: false,
            vector: &[0, 1],
            conditions: &[
                (0, Sign::Equal, 1),
                (0, Sign::Equal, 1),
                (0, Sign::Equal, 1),
                (0, Sign::Equal, 1),
                (0, Sign::Equal, 1),
                (0, Sign::Equal, 1),
                (0, Sign::Equal, 1),
                (0, Sign::Equal, 1),
                (0, Sign::Equal, 1),
                (0, Sign::Equal, 1),
                (0, Sign::Equal, 1),
                (0, Sign::Equal, 1),
                (0, Sign::Equal, 1),
                (0, Sign::Equal, 1),
                (0, Sign::Equal, 1),
                (0, Sign::Equal, 1),
                (0, Sign::Equal, 1),
            ],
        },
        filled: 0,
        branch: 0,
        more: &[],
        candidate: Err(TableFault::BadMemory),
        added: 0,
    },
];

// The form at a height of row 0's candidate on a branch of the hopper's sheet, over `FIRST_TERMS`, whether it is
// safe, and whether row 0 takes it.
struct Step {
    name: &'static str,
    branch: u8,
    height: u8,
    form: Written,
    safe: bool,
    taken: bool,
}

const FIRST_TERMS: &[Node] = &[Node::Name(0), Node::Name(1), Node::Unary(1, 0)];

static STEPS: [Step; 4] = [
    Step {
        name: "no raise: row 0 again",
        branch: 0,
        height: 1,
        form: Written {
            bits: false,
            vector: &[0, 1],
            conditions: &[],
        },
        safe: true,
        taken: true,
    },
    Step {
        name: "no raise, nothing to cut at height 0",
        branch: 0,
        height: 0,
        form: Written {
            bits: false,
            vector: &[0, 1],
            conditions: &[],
        },
        safe: true,
        taken: true,
    },
    Step {
        name: "a raise: the claim holds",
        branch: 1,
        height: 1,
        form: Written {
            bits: true,
            vector: &[0, 2],
            conditions: &[],
        },
        safe: true,
        taken: false,
    },
    Step {
        name: "a raise, and f(x0) is cut: the claim may fail",
        branch: 1,
        height: 0,
        form: Written {
            bits: true,
            vector: &[0, 1],
            conditions: &[],
        },
        safe: false,
        taken: false,
    },
];

fn start_comes_out(heap: Global, case: &Start) -> Result<bool, Fail> {
    let sheet = sheet_of(heap, case.sheet)?;
    let mut memory = Memory::empty(heap);
    let row = first_row(&sheet, &mut memory.bank, &mut memory.count)?;
    let terms = memory.count.terms;
    memory.load(case.terms)?;
    let mut labels = [0; MOST_TERMS];
    let safe = is_safe(
        &sheet,
        &mut memory.bank,
        &mut memory.count,
        &row,
        &mut labels,
    )?;
    let all = terms as usize == case.terms.len() && memory.count.terms == terms;
    Ok(all && safe == case.safe && same_row(&sheet, &row, &memory.row_of(&case.row)))
}

// It goes as `forming::comes_out` does, but with other calls between the same steps: one function for both would be longer.
fn branch_comes_out(heap: Global, case: &Branch) -> Result<bool, Fail> {
    let sheet = sheet_of(heap, case.sheet)?;
    let mut memory = Memory::empty(heap);
    memory.load(case.terms)?;
    memory.fill(case.filled)?;
    let row = memory.row_of(&case.row);
    let before = memory.bank;
    let terms = memory.count.terms;
    let answer = candidate(
        &sheet,
        &mut memory.bank,
        &mut memory.count,
        &row,
        case.branch,
    );
    let after = terms.saturating_add(case.added);
    if memory.count.terms != after || !same_first(&before, &memory.bank, terms as usize) {
        return Ok(false);
    }
    // the candidate's terms are in the bank, so that its conditions alone add none
    let alone = branch_conditions(
        &sheet,
        &mut memory.bank,
        &mut memory.count,
        &row,
        case.branch,
    );
    memory.load(case.more)?;
    // By a match, as in `forming`.
    let same = match (answer, alone, &case.candidate) {
        (Ok(made), Ok(asked), Ok(written)) => {
            same_row(&sheet, &made, &memory.row_of(written))
                && asked.used == made.used
                && same_first(&asked.list, &made.conditions, made.used as usize)
        }
        (Err(found), Err(other), Err(fault)) => found == *fault && other == *fault,
        _ => false,
    };
    Ok(same && memory.count.terms == after)
}

fn step_comes_out(heap: Global, case: &Step) -> Result<bool, Fail> {
    let sheet = sheet_of(heap, HOPPER)?;
    let mut memory = Memory::empty(heap);
    let mut labels = [0; MOST_TERMS];
    let first = first_row(&sheet, &mut memory.bank, &mut memory.count)?;
    let made = candidate(
        &sheet,
        &mut memory.bank,
        &mut memory.count,
        &first,
        case.branch,
    )?;
    let low = form(
        &sheet,
        &mut memory.bank,
        &mut memory.count,
        &made,
        case.height,
    )?;
    let safe = is_safe(
        &sheet,
        &mut memory.bank,
        &mut memory.count,
        &low,
        &mut labels,
    )?;
    let taken = takes(
        &sheet,
        &mut memory.bank,
        &mut memory.count,
        &first,
        &low,
        &mut labels,
    )?;
    memory.load(FIRST_TERMS)?;
    let same = same_row(&sheet, &low, &memory.row_of(&case.form));
    Ok(same && safe == case.safe && taken.is_some() == case.taken)
}

#[test]
fn every_start_comes_out(rt: HostRuntime) -> Result<(), Fail> {
    // A loop beside each table: a trait for the tables' cases would be longer.
    for case in &STARTING {
        assert!(rt; start_comes_out(rt.alloc(), case)?, "{}", case.name);
    }
    Ok(())
}

#[test]
fn every_branch_comes_out(rt: HostRuntime) -> Result<(), Fail> {
    // A loop beside each table: a trait for the tables' cases would be longer.
    for case in &BRANCHES {
        assert!(rt; branch_comes_out(rt.alloc(), case)?, "{}", case.name);
    }
    Ok(())
}

#[test]
fn every_step_comes_out(rt: HostRuntime) -> Result<(), Fail> {
    // A loop beside each table: a trait for the tables' cases would be longer.
    for case in &STEPS {
        assert!(rt; step_comes_out(rt.alloc(), case)?, "{}", case.name);
    }
    Ok(())
}
