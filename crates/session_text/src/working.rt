//! An opening of a table, and the calls that follow it.
ghost use Rattle.std.specs.Prelude.{◌≡◌, ℕ, ◌++◌, map, length, vec_items, IfOk, OnOk, MatchResult, string_bytes, Option, Some, None};
ghost use Rattle.sheet.specs.System.{System};
ghost use Rattle.sheet.specs.View.{sheet_of};
ghost use Rattle.reader.specs.Law.{ReadAs, Refused};
ghost use Rattle.table.specs.Answers.{call_of, answer_of};
ghost use Rattle.table.specs.Memory.{HasLengths};
ghost use Rattle.table_memory.specs.Room.{IsRoom};
ghost use Rattle.session_text.specs.Session.{calls_before, stretches, Worked, StretchTold, Told, SessionTold};

use crate::lines::{push_entries, push_open};
use fault::{Failure, TableFault};
use reader::{read, smallest};
use rows::RowRecord;
use rules::{Answer, Counts, Entry, Mark};
use script::Step;
use sheet::Sheet;
use std::alloc::{AllocError, Global};
use table::Table;
use table_memory::Memory;
use terms::TermRecord;

/// The sheet that the bytes describe.
pub(crate) fn sheet_in(heap: Global, bytes: &[u8]) -> Result<Sheet, Failure>
    ensures { MatchResult result (λ sheet. ReadAs bytes.now (sheet_of sheet)) (λ e. Refused bytes.now e) }
{
    let mut sheet = smallest(heap)?;
    read(bytes, heap, &mut sheet)?;
    Ok(sheet)
}

/// The calls up to the next opening. Their answers are written over.
fn next_calls(heap: Global, steps: &[Step]) -> Result<Vec<Entry>, AllocError>
    ensures { IfOk result (λ entries. map call_of entries.items ≡ calls_before steps.now) }
{
    let mut entries = Vec::new(heap);
    for step in steps {
        match step {
            Step::Call(call) => entries.push(Entry {
                call: *call,
                answer: Answer::Done,
            })?,
            Step::Open(_) => return Ok(entries),
        }
    }
    Ok(entries)
}

/// Opens a table in the memory and makes the calls, also where the opening is refused: the refusal, and what they leave.
fn worked(
    sheet: Sheet,
    limit: u8,
    entries: &mut [Entry],
    bank: &mut [TermRecord],
    rows: &mut [RowRecord],
    marks: &mut [Mark],
    work: &mut [u16],
) -> (Option<TableFault>, Counts)
    requires { HasLengths (length bank.old) (length rows.old) (length marks.old) (length work.old) }
    ensures calls { map call_of entries.new ≡ map call_of entries.old }
    ensures worked { Worked (sheet_of sheet) limit
        (map call_of entries.new) (map answer_of entries.new) result.0 result.1 }
{
    let mut table = Table::new(bank, rows, marks, work);
    match table.answer_all(sheet, limit, entries) {
        Ok(()) => (None, table.counts()),
        Err(fault) => {
            table.make_all(entries);
            (Some(fault), table.counts())
        }
    }
}

/// Adds the lines of an opening with the limit, and of the calls up to the next one.
// The sheet is read anew, since the table keeps the one that it is opened on.
fn push_stretch(
    heap: Global,
    bytes: &[u8],
    limit: u8,
    steps: &[Step],
    memory: &mut Memory,
    text: &mut String,
) -> Result<Counts, AllocError>
    requires { IsRoom memory.old }
    ensures room { IsRoom memory.new }
    ensures told { IfOk result (λ counts. (s : System) → ReadAs bytes.now s
        → StretchTold s limit (calls_before steps.now) (string_bytes text.old) (string_bytes text.new) counts) }
{
    // What was read once is read again; a failure is want of memory.
    let Ok(sheet) = sheet_in(heap, bytes) else {
        return Err(AllocError);
    };
    let mut entries = next_calls(heap, steps)?;
    let (refusal, counts) = worked(
        sheet,
        limit,
        &mut entries,
        &mut memory.bank,
        &mut memory.rows,
        &mut memory.marks,
        &mut memory.work,
    );
    push_open(text, limit, refusal)?;
    push_entries(text, &entries)?;
    Ok(counts)
}

/// Adds those of all later openings, and answers what the last one leaves.
fn push_later(
    heap: Global,
    bytes: &[u8],
    before: Counts,
    steps: &[Step],
    memory: &mut Memory,
    text: &mut String,
) -> Result<Counts, AllocError>
    requires { IsRoom memory.old }
    ensures { IfOk result (λ counts. (s : System) → ReadAs bytes.now s
        → Told s before (stretches steps.now) (string_bytes text.old) (string_bytes text.new) counts) }
{
    let mut counts = before;
    for (i, step) in steps.iter().enumerate() {
        if let Step::Open(limit) = step {
            counts = push_stretch(heap, bytes, *limit, &steps[i + 1..], memory, text)?;
        }
    }
    Ok(counts)
}

/// Adds the lines of all openings and calls, and answers what the last opening's leave.
pub(crate) fn push_steps(
    heap: Global,
    bytes: &[u8],
    limit: u8,
    steps: &[Step],
    text: &mut String,
) -> Result<Counts, AllocError>
    ensures { IfOk result (λ counts. (s : System) → ReadAs bytes.now s
        → SessionTold s limit steps.now (string_bytes text.old) (string_bytes text.new) counts) }
{
    let mut memory = Memory::new(heap)?;
    let counts = push_stretch(heap, bytes, limit, steps, &mut memory, text)?;
    push_later(heap, bytes, counts, steps, &mut memory, text)
}
