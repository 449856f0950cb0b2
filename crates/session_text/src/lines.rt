//! The lines of a session.
ghost use Rattle.std.specs.Prelude.{◌≡◌, ◌++◌, map, string_bytes, OnOk};
ghost use Rattle.session_text.specs.Lines.{branch_words, call_words, answer_words, call_line, lines_of, open_line, counts_line};
ghost use Rattle.table.specs.Answers.{call_of, answer_of};

use fault::{Fault, TableFault};
use rules::{Answer, Branch, Call, Counts, Entry};
use std::alloc::AllocError;

// A row and a branch. No `Display`, here and below, which this crate could give only to types around those of `rules`.
fn push_branch(text: &mut String, branch: Branch) -> Result<(), AllocError>
    ensures { OnOk result (string_bytes text.new ≡ string_bytes text.old ++ branch_words branch) }
{
    let row = branch.row;
    let number = branch.number;
    write!(text, "{row} {number}")
}

// A call in its own words.
fn push_call(text: &mut String, call: Call) -> Result<(), AllocError>
    ensures { OnOk result (string_bytes text.new ≡ string_bytes text.old ++ call_words call) }
{
    match call {
        Call::Take(branch) => {
            text.push_str("take ")?;
            push_branch(text, branch)
        }
        Call::GiveBack(branch) => {
            text.push_str("give ")?;
            push_branch(text, branch)
        }
        Call::Strike(branch) => {
            text.push_str("strike ")?;
            push_branch(text, branch)
        }
        Call::Merge {
            ticket,
            target,
            height,
        } => {
            text.push_str("merge ")?;
            push_branch(text, ticket)?;
            write!(text, " {target} {height}")
        }
        Call::Keep { ticket, height } => {
            text.push_str("keep ")?;
            push_branch(text, ticket)?;
            write!(text, " {height}")
        }
        Call::Verdict => text.push_str("verdict"),
    }
}

// An answer; of a refusal the number.
fn push_answer(text: &mut String, answer: Answer) -> Result<(), AllocError>
    ensures { OnOk result (string_bytes text.new ≡ string_bytes text.old ++ answer_words answer) }
{
    match answer {
        Answer::Taken(_) => text.push_str("ok"),
        Answer::Done => text.push_str("ok"),
        Answer::Joined(joins) => write!(text, "ok joins {joins}"),
        Answer::Holds => text.push_str("holds"),
        Answer::Open { waiting, out } => write!(text, "open waiting {waiting} out {out}"),
        Answer::Refused(fault) => {
            let number = Fault::Table(fault).number();
            write!(text, "fault {number}")
        }
    }
}

// A call and its answer.
fn push_entry(text: &mut String, entry: &Entry) -> Result<(), AllocError>
    ensures { OnOk result (string_bytes text.new
        ≡ string_bytes text.old ++ call_line entry.now.call entry.now.answer) }
{
    push_call(text, entry.call)?;
    text.push_str(" ")?;
    push_answer(text, entry.answer)?;
    text.push_str("\n")
}

/// A line for each call, with its answer.
pub(crate) fn push_entries(text: &mut String, entries: &[Entry]) -> Result<(), AllocError>
    ensures { OnOk result (string_bytes text.new
        ≡ string_bytes text.old ++ lines_of (map call_of entries.now) (map answer_of entries.now)) }
{
    for entry in entries {
        push_entry(text, entry)?;
    }
    Ok(())
}

/// An opening with the limit, and whether it was refused.
pub(crate) fn push_open(
    text: &mut String,
    limit: u8,
    fault: Option<TableFault>,
) -> Result<(), AllocError>
    ensures { OnOk result (string_bytes text.new ≡ string_bytes text.old ++ open_line limit fault) }
{
    match fault {
        None => write!(text, "open {limit} ok\n"),
        Some(fault) => {
            let number = Fault::Table(fault).number();
            write!(text, "open {limit} fault {number}\n")
        }
    }
}

/// The rows, and how many branches have each mark.
pub(crate) fn push_counts(text: &mut String, counts: Counts) -> Result<(), AllocError>
    ensures { OnOk result (string_bytes text.new ≡ string_bytes text.old ++ counts_line counts) }
{
    let Counts {
        rows,
        kept,
        merged,
        struck,
        waiting,
        out,
    } = counts;
    write!(
        text,
        "rows {rows} kept {kept} merged {merged} struck {struck}"
    )?;
    write!(text, " waiting {waiting} out {out}\n")
}
