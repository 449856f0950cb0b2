//! Calls by name, and lists of calls.
ghost use Rattle.std.specs.Prelude.{◌≡◌, map, MatchResult, IfOk, IfErr};
ghost use Rattle.sheet.specs.View.{sheet_of};
ghost use Rattle.rules.specs.Promises.{Opens, OpenRefused, Promises};
ghost use Rattle.rules.specs.declared.Answer.{Answer};
ghost use Rattle.table.specs.Answers.{answer_of, call_of};
ghost use Rattle.table.specs.Standing.{Performs, PlayedBy, LeftBy, Fits, IsUnopened, KeepsMemory};

use crate::table::Table;
use crate::ticket::{Refusal, Ticket};
use crate::verdict::Verdict;
use fault::TableFault;
use rules::{Answer, Call, Entry};
use sheet::Sheet;

impl Table<'_> {
    /// Makes one call. A call that names a ticket's branch is made with a ticket for it, as one from another table
    /// would be.
    pub(crate) fn make(&mut self, call: Call) -> Answer
        ensures performs { Performs self.old call result self.new }
        ensures memory { KeepsMemory self.old self.new }
    {
        match call {
            Call::Take(branch) => match self.take(branch.row, branch.number) {
                Ok(Ticket { branch }) => Answer::Taken(branch),
                Err(fault) => Answer::Refused(fault),
            },
            Call::GiveBack(branch) => match self.give_back(Ticket { branch }) {
                Ok(()) => Answer::Done,
                Err(refusal) => refused(refusal),
            },
            Call::Strike(branch) => match self.strike(Ticket { branch }) {
                Ok(joins) => Answer::Joined(joins),
                Err(refusal) => refused(refusal),
            },
            Call::Merge {
                ticket,
                target,
                height,
            } => match self.merge(Ticket { branch: ticket }, target, height) {
                Ok(()) => Answer::Done,
                Err(refusal) => refused(refusal),
            },
            Call::Keep { ticket, height } => match self.keep(Ticket { branch: ticket }, height) {
                Ok(()) => Answer::Done,
                Err(refusal) => refused(refusal),
            },
            Call::Verdict => match self.verdict() {
                Verdict::Holds => Answer::Holds,
                Verdict::Open { waiting, out } => Answer::Open { waiting, out },
            },
        }
    }

    /// Makes the calls in turn, each answered in its place.
    pub fn make_all(&mut self, entries: &mut [Entry])
        ensures calls { map call_of entries.new ≡ map call_of entries.old }
        ensures played { PlayedBy self.old (map call_of entries.new)
            (map answer_of entries.new) self.new }
        ensures memory { KeepsMemory self.old self.new }
    {
        for k in 0..entries.len() {
            entries[k].answer = self.make(entries[k].call);
        }
    }

    /// Opens the table on the sheet, and makes the calls in turn, each answered in its place.
    pub fn answer_all(
        &mut self,
        sheet: Sheet,
        limit: u8,
        entries: &mut [Entry],
    ) -> Result<(), TableFault>
        ensures calls { map call_of entries.new ≡ map call_of entries.old }
        ensures opened { MatchResult result (λ _. Opens (sheet_of sheet) limit (Fits self.old))
            (OpenRefused (sheet_of sheet) limit (Fits self.old)) }
        ensures promised { IfOk result (λ _. Promises (sheet_of sheet) limit
            (map call_of entries.new) (map answer_of entries.new)) }
        ensures left { IfOk result (λ _. LeftBy (sheet_of sheet) limit
            (map call_of entries.new) self.new) }
        ensures unanswered { IfErr result (λ _. entries.new ≡ entries.old) }
        ensures refused { IfErr result (λ _. IsUnopened self.new) }
        ensures memory { KeepsMemory self.old self.new }
    {
        self.open(sheet, limit)?;
        self.make_all(entries);
        Ok(())
    }
}

/// The fault of a refusal of a ticket that was made for one call, which ends with it.
fn refused(refusal: Refusal) -> Answer
    ensures { result ≡ Answer.Refused refusal.fault }
{
    let Refusal {
        fault,
        ticket: Ticket { branch: _ },
    } = refusal;
    Answer::Refused(fault)
}
