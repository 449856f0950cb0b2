//! Calls on a check table: what the rules make of them, the three promises about any list of calls,
//! and the laws that these rest on.
#![tactic(auto)]

ghost use Rattle.std.specs.Prelude.{◌≡◌, ℕ, List, slice_get, IfOk, MatchResult};
ghost use Rattle.bench.specs.Outcome.{Accepted, Refused};
ghost use Rattle.sheet.specs.Runs.{FirstBreak};
ghost use Rattle.sheet.specs.View.{sheet_of};
ghost use Rattle.rules.specs.declared.Answer.{Answer};
ghost use Rattle.rules.specs.declared.Answer.TheVariants.{Holds};
ghost use Rattle.rules.specs.declared.Call.{Call};
ghost use Rattle.rules.specs.Laws.{Accounting, Alone, AnsweredPromises, Bears, Counting};
ghost use Rattle.rules.specs.Laws.{OneOutcome, PlayedTurns};
ghost use Rattle.rules.specs.Promises.{Promises};
ghost use Rattle.rules.specs.Safety.{Covered, Keeping, Settles};
ghost use Rattle.rules.specs.Standing.{is_waiting, is_out, is_struck, is_merged, is_kept};
ghost use Rattle.rules.specs.Working.{OneWork, WorkPlayed, WorkSettles};

use fault::{Fault, TableFault};
use plant::Model;
use sheet::Sheet;

/// What has become of a branch.
#[derive(Clone, Copy, Debug, PartialEq, Eq)]
pub enum Mark {
    /// Nobody has taken it.
    Waiting,
    /// It was taken, and has been neither settled nor given back since.
    Out,
    /// No run goes on by it.
    Struck,
    /// An older row takes its form.
    Merged,
    /// Its form is a row.
    Kept,
}

impl Mark {
    /// Whether the branch waits to be taken.
    pub fn is_waiting(self) -> bool
        ensures { result ≡ is_waiting self }
    {
        matches!(self, Mark::Waiting)
    }

    /// Whether a ticket for the branch is out.
    pub fn is_out(self) -> bool
        ensures { result ≡ is_out self }
    {
        matches!(self, Mark::Out)
    }

    /// Whether a strike has settled the branch.
    pub fn is_struck(self) -> bool
        ensures { result ≡ is_struck self }
    {
        matches!(self, Mark::Struck)
    }

    /// Whether a merge has settled the branch.
    pub fn is_merged(self) -> bool
        ensures { result ≡ is_merged self }
    {
        matches!(self, Mark::Merged)
    }

    /// Whether a keep has settled the branch.
    pub fn is_kept(self) -> bool
        ensures { result ≡ is_kept self }
    {
        matches!(self, Mark::Kept)
    }
}

/// A branch of a row, as a call and a ticket name it.
#[derive(Clone, Copy, Debug, PartialEq, Eq)]
pub struct Branch {
    pub row: u8,
    pub number: u8,
}

/// A call on a table. A ticket is told by the branch that it names.
#[derive(Clone, Copy, Debug, PartialEq, Eq)]
pub enum Call {
    Take(Branch),
    GiveBack(Branch),
    Strike(Branch),
    Merge {
        ticket: Branch,
        target: u8,
        height: u8,
    },
    Keep {
        ticket: Branch,
        height: u8,
    },
    Verdict,
}

/// What a call answers.
#[derive(Clone, Copy, Debug, PartialEq, Eq)]
pub enum Answer {
    /// A ticket that names the branch.
    Taken(Branch),
    /// A give back, a merge or a keep was accepted.
    Done,
    /// A strike was accepted: so many times two classes of equal terms became one.
    Joined(u16),
    /// The verdict: no branch is waiting or out.
    Holds,
    /// The verdict: so many branches are. A table without rows is open with none.
    Open { waiting: u32, out: u32 },
    /// The call changed nothing.
    Refused(TableFault),
}

/// How many rows a table has, and how many of its branches have each mark.
#[derive(Clone, Copy, Debug, PartialEq, Eq)]
pub struct Counts {
    pub rows: usize,
    pub kept: usize,
    pub merged: usize,
    pub struck: usize,
    pub waiting: usize,
    pub out: usize,
}

/// What working a table through comes to.
#[derive(Clone, Copy, Debug, PartialEq, Eq)]
pub enum Outcome {
    /// No branch is waiting or out.
    Holds,
    /// So many branches are, each of them out for somebody else.
    Open { waiting: u32, out: u32 },
    /// The form of this branch is not safe.
    Unknown(Branch),
    /// Names, terms or rows do not suffice for this branch.
    Full(Branch),
}

/// A call, and the place for its answer.
#[derive(Clone, Copy, Debug, PartialEq, Eq)]
pub struct Entry {
    pub call: Call,
    pub answer: Answer,
}

/// Accepted calls account for every branch of every row.
pub fn accounting()
    ensures { Accounting }
{}

/// What answered calls come to is what the rules give.
pub fn played_turns()
    ensures { PlayedTurns }
{}

/// The rules give a call at most one outcome.
pub fn one_outcome()
    ensures { OneOutcome }
{}

/// Calls come to one thing only.
pub fn alone()
    ensures { Alone }
{}

/// Where each call was answered as the rules say, the promises are kept.
pub fn answered_promises()
    ensures { AnsweredPromises }
{}

/// After any calls, the rules bear a call exactly when no fault refuses it.
pub fn bears()
    ensures { Bears }
{}

/// From the rules alone, a standing with no branch waiting or out shows the invariant true.
pub fn safety_law()
    ensures covered { Covered }
    ensures settles { Settles }
{}

/// Where each call was answered as the rules say, all three promises are kept.
pub fn keeping()
    ensures { Keeping }
{}

/// The work on a table makes calls that are answered by the rules.
pub fn work_played()
    ensures { WorkPlayed }
{}

/// Working a newly opened table through makes one list of calls, and comes to one outcome.
pub fn one_work()
    ensures { OneWork }
{}

/// Of the accepted calls, as many keeps, merges and strikes as there are marks of their name.
pub fn counting()
    ensures { Counting }
{}

/// Working a newly opened table through never ends with a branch waiting or out.
pub fn work_settles()
    ensures { WorkSettles }
{}

/// Runs a sheet on the bench, as `bench::run` does. Where some list of calls on a newly opened table was answered holds, the run
/// answers none, over every plant model.
pub fn run_after_holds<M: Model>(
    sheet: &Sheet,
    model: &mut M,
    starts: &[u32],
    n: u32,
    inputs: &[u32],
) -> Result<Option<u32>, Fault>
    ensures answer { MatchResult result
        (λ a. Accepted (sheet_of sheet.now) starts.now inputs.now n
        × FirstBreak (M.meaning model.old) (sheet_of sheet.now) starts.now inputs.now n a)
        (λ f. Refused (sheet_of sheet.now) starts.now inputs.now n f × (model.new ≡ model.old)) }
    ensures kept { M.meaning model.new ≡ M.meaning model.old }
    ensures lent { M.lenders model.new ≡ M.lenders model.old }
    ensures promised { (limit : ℕ) (calls : List Call) (answers : List Answer) (k : ℕ)
        → Promises (sheet_of sheet.now) limit calls answers → slice_get answers k ≡ Some Holds
        → IfOk result (λ answer. answer ≡ None) }
{
    bench::run(sheet, model, starts, n, inputs)
}
