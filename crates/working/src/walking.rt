//! The walk over rows and branches.
ghost use Rattle.std.specs.Prelude.{◌≡◌, ◌+◌, ◌-◌, ◌<◌, ◌≤◌, ◌++◌, length, IsSome};
ghost use Rattle.std.specs.List.{range_with_len};
ghost use Rattle.queue.specs.Entries.{entries, room};
ghost use Rattle.rules.specs.Standing.{branches, mark_of};
ghost use Rattle.table.specs.Standing.{KeepsMemory, Tells};
ghost use Rattle.working.specs.Work.{BranchWorked, RowWorked, TableWorked, ending, waits_in};

use crate::offering::settle;
use fault::TableFault;
use queue::Queue;
use rules::{Branch, Outcome};
use table::{Refusal, Table, Verdict};

const MOST_ROWS: usize = 64;

/// What the work ends with where no offer on the branch is accepted, by the fault of the keep.
fn ending(branch: Branch, fault: TableFault) -> Outcome
    ensures { result ≡ ending branch fault }
{
    match fault {
        TableFault::UnsafeForm => Outcome::Unknown(branch),
        _ => Outcome::Full(branch),
    }
}

/// Settles a branch that waits. Where no offer on it is accepted it is given back, and the work ends.
fn work_branch(table: &mut Table, branch: Branch) -> Option<Outcome>
    ensures worked { BranchWorked table.old branch table.new result }
    ensures memory { KeepsMemory table.old table.new }
{
    let Ok(ticket) = table.take(branch.row, branch.number) else {
        return None;
    };
    let Err(Refusal { fault, ticket }) = settle(table, ticket) else {
        return None;
    };
    match table.give_back(ticket) {
        Ok(()) => Some(ending(branch, fault)),
        // The ticket's branch is out here.
        Err(_refusal) => unreachable!(),
    }
}

/// Whether the branch waits.
fn waits(table: &Table, branch: Branch) -> bool
    ensures waits { Tells table.now (λ s at. result ≡ waits_in (mark_of at branch)) }
    ensures there { Tells table.now
        (λ s at. branch.row < length at.rows → branch.number < branches s
        → IsSome (mark_of at branch)) }
{
    match table.mark(branch) {
        Some(mark) => mark.is_waiting(),
        None => false,
    }
}

/// Works the branches of a row, in order, passing any that does not wait.
fn work_row(table: &mut Table, row: u8) -> Option<Outcome>
    ensures worked { RowWorked table.old row table.new result }
    ensures memory { KeepsMemory table.old table.new }
{
    for number in 0..table.branches_per_row() {
        let branch = Branch { row, number };
        if !waits(table, branch) {
            continue;
        }
        if let Some(outcome) = work_branch(table, branch) {
            return Some(outcome);
        }
    }
    None
}

/// The rows from one number up to another wait behind those that are due.
fn enqueue(due: &mut Queue<u8>, from: u8, to: u8)
    requires { length (entries due.old) + (to - from) ≤ room due.old }
    ensures rows { entries due.new ≡ entries due.old ++ range_with_len from (to - from) }
    ensures roomy { room due.new ≡ room due.old }
{
    for row in from..to {
        let _full = due.push(row);
    }
}

/// Works the table through: over its rows in order, also those that it keeps on the way, and their branches in order. The
/// rows that are still due wait in a queue.
pub fn work_through(table: &mut Table) -> Outcome
    ensures worked { TableWorked table.old table.new result }
    ensures memory { KeepsMemory table.old table.new }
{
    let mut slots = [0u8; MOST_ROWS];
    let mut due = Queue::new(&mut slots);
    enqueue(&mut due, 0, table.rows());
    while let Some(row) = due.pop() {
        let known = table.rows();
        if let Some(outcome) = work_row(table, row) {
            return outcome;
        }
        enqueue(&mut due, known, table.rows());
    }
    match table.verdict() {
        Verdict::Holds => Outcome::Holds,
        Verdict::Open { waiting, out } => Outcome::Open { waiting, out },
    }
}
