//! Where the marks of a table's branches lie.
ghost use Rattle.std.specs.Prelude.{◌≡◌, ◌+◌, ◌≤◌, ◌++◌, take, length, replicate, MatchOption};
ghost use Rattle.sheet.specs.View.{sheet_of};
ghost use Rattle.rules.specs.Standing.{branches};
ghost use Rattle.rules.specs.declared.Mark.TheVariants.{Waiting};
ghost use Rattle.table.specs.Places.{branches_in, Absent, IsPlace, Turned};

use crate::mark::{Event, next_mark};
use crate::table::Table;
use fault::TableFault;
use rules::{Branch, Mark};
use sheet::Sheet;

/// How many branches each row of the sheet has.
pub(crate) fn branches_of(sheet: &Sheet) -> usize
    ensures number { result ≡ branches (sheet_of sheet.now) }
    ensures few { result ≤ 64 }
{
    1usize << sheet.parts.questions.len()
}

/// So many marks wait, from the place `from` on.
pub(crate) fn wait(marks: &mut [Mark], from: usize, branches: usize)
    requires { from + branches ≤ length marks.old }
    ensures { take (from + branches) marks.new
        ≡ take from marks.old ++ replicate branches Waiting }
{
    for k in from..from + branches {
        marks[k] = Mark::Waiting;
    }
}

impl Table<'_> {
    /// How many branches each row has; none where the table is not open.
    pub(crate) fn branches(&self) -> usize
        ensures number { result ≡ branches_in self.now.sheet }
        ensures few { result ≤ 64 }
    {
        match &self.sheet {
            Some(sheet) => branches_of(sheet),
            None => 0,
        }
    }

    /// The place of a branch's mark, where there is such a row and branch.
    pub(crate) fn place(&self, branch: Branch) -> Option<usize>
        ensures { MatchOption result (Absent self.now branch) (IsPlace self.now branch) }
    {
        let branches = self.branches();
        if branch.row >= self.used || branch.number as usize >= branches {
            return None;
        }
        Some(branch.row as usize * branches + branch.number as usize)
    }

    /// The place of the branch's mark, and what the event makes of it; a branch that is not there is not out.
    pub(crate) fn turn(&self, branch: Branch, event: Event) -> Result<(usize, Mark), TableFault>
        ensures { Turned self.now branch event result }
    {
        let place = self.place(branch).ok_or(TableFault::NotOut)?;
        let mark = next_mark(self.marks[place], event)?;
        Ok((place, mark))
    }
}
