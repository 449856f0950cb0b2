//! The offers on one branch that is out.
ghost use Rattle.std.specs.Prelude.{◌≡◌, IfErr};
ghost use Rattle.table.specs.Answers.{branch_of};
ghost use Rattle.table.specs.Standing.{KeepsMemory};
ghost use Rattle.working.specs.Work.{MergedOrKept, Tried};

use table::{Refusal, Table, Ticket};

/// Merges at the bound into the rows in turn, up to the first that takes the form; then a keep at the bound.
fn merge_or_keep(table: &mut Table, ticket: Ticket) -> Result<(), Refusal>
    ensures made { MergedOrKept table.old (branch_of ticket) table.new result }
    ensures memory { KeepsMemory table.old table.new }
    ensures unspent { IfErr result (λ refusal. refusal.ticket ≡ ticket) }
{
    let height = table.bound();
    let mut ticket = ticket;
    for target in 0..table.rows() {
        match table.merge(ticket, target, height) {
            Ok(()) => return Ok(()),
            Err(
                Refusal {
                    fault: _,
                    ticket: unspent,
                },
            ) => ticket = unspent,
        }
    }
    table.keep(ticket, height)
}

/// A strike, then merges and a keep: the offers in their order, up to the first that is accepted. A refusal is the keep's.
pub(crate) fn settle(table: &mut Table, ticket: Ticket) -> Result<(), Refusal>
    ensures tried { Tried table.old (branch_of ticket) table.new result }
    ensures memory { KeepsMemory table.old table.new }
    ensures unspent { IfErr result (λ refusal. refusal.ticket ≡ ticket) }
{
    match table.strike(ticket) {
        Ok(_) => Ok(()),
        Err(Refusal { fault: _, ticket }) => merge_or_keep(table, ticket),
    }
}
