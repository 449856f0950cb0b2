//! Verdicts.
ghost use Rattle.std.specs.Prelude.{◌≡◌, count_by};
ghost use Rattle.rules.specs.Standing.{is_waiting, is_out};
ghost use Rattle.rules.specs.declared.Call.{Call};
ghost use Rattle.table.specs.Answers.{answer_of_verdict};
ghost use Rattle.table.specs.Standing.{Performs};

use crate::table::Table;
use rows::front;
use rules::Mark;

/// What a table has come to.
#[derive(Clone, Copy, Debug, PartialEq, Eq)]
pub enum Verdict {
    /// No branch is waiting or out.
    Holds,
    /// So many are. A table without rows is open with none.
    Open { waiting: u32, out: u32 },
}

pub(crate) fn waiting_in(marks: &[Mark]) -> usize
    ensures { result ≡ count_by is_waiting marks.now }
{
    marks.iter().filter(|mark| mark.is_waiting()).count()
}

pub(crate) fn out_in(marks: &[Mark]) -> usize
    ensures { result ≡ count_by is_out marks.now }
{
    marks.iter().filter(|mark| mark.is_out()).count()
}

impl Table<'_> {
    /// Whether the table holds, or how many branches are waiting and are out.
    pub fn verdict(&self) -> Verdict
        ensures { Performs self.now Call.Verdict (answer_of_verdict result) self.now }
    {
        let marks = front(self.marks, self.used as usize * self.branches());
        let waiting = waiting_in(marks);
        let out = out_in(marks);
        if self.used > 0 && waiting == 0 && out == 0 {
            return Verdict::Holds;
        }
        Verdict::Open {
            waiting: waiting as u32,
            out: out as u32,
        }
    }
}
