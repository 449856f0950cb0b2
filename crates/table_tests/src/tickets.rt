//! Tickets: a refusal hands them back, and they count at another table for its branch of the same numbers.
use crate::memory::{HOPPER, Memory, WHOLE, sheet_of};
use fault::TableFault;
use rules::Branch;
use std::process::Abort;
use std::test::Fail;
use table::{Refusal, Table, Ticket, Verdict};

// A ticket for a branch that waits.
fn taken(rt: &impl Abort, table: &mut Table, row: u8, number: u8) -> Ticket {
    match table.take(row, number) {
        Ok(ticket) => {
            assert_eq!(rt; ticket.branch(), Branch { row, number });
            ticket
        }
        Err(fault) => panic!(rt; "take was refused: {:?}", fault),
    }
}

// The ticket that a refusal for this fault hands back.
fn unspent<T: Drop>(rt: &impl Abort, made: Result<T, Refusal>, expected: TableFault) -> Ticket {
    match made {
        Ok(_) => panic!(rt; "a call was accepted"),
        Err(Refusal { fault, ticket }) => {
            assert_eq!(rt; fault, expected);
            ticket
        }
    }
}

// A call that has to be accepted, and spends its ticket.
fn spent(rt: &impl Abort, made: Result<(), Refusal>) {
    if let Err(refusal) = made {
        panic!(rt; "a call was refused: {:?}", refusal.fault);
    }
}

#[test]
fn tickets_count_at_another_table(rt: HostRuntime) -> Result<(), Fail> {
    let mut memory = Memory::new(rt.alloc(), &WHOLE)?;
    let mut table = memory.table();
    table.open(sheet_of(rt.alloc(), HOPPER)?, 64)?;
    let mut more = Memory::new(rt.alloc(), &WHOLE)?;
    // At first the other table was never opened.
    let mut other = more.table();
    let sheet = sheet_of(rt.alloc(), HOPPER)?;
    let stray = taken(&rt, &mut table, 0, 1);
    let stray = unspent(&rt, other.give_back(stray), TableFault::NotOut);
    assert_eq!(rt; other.open(sheet, 64), Ok(()));
    let stray = unspent(&rt, other.strike(stray), TableFault::NotOut);
    let own = taken(&rt, &mut other, 0, 1);
    let stray = unspent(&rt, other.merge(stray, 0, 1), TableFault::NoRenaming);
    spent(&rt, other.keep(stray, 1));
    assert_eq!(rt; other.rows(), 2);
    let own = unspent(&rt, other.keep(own, 1), TableFault::NotOut);
    spent(&rt, table.give_back(own));
    assert_eq!(rt; table.verdict(), Verdict::Open { waiting: 2, out: 0 });
    Ok(())
}
