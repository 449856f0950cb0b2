//! The one line that is printed of a sheet that is checked.
#![tactic(auto)]

ghost use Rattle.std.specs.Prelude.{◌≡◌, IfOk, string_bytes, codes, nat_eq, IsTrue};
ghost use Rattle.std.specs.List.{starts_with};
ghost use Rattle.sheet.specs.View.{sheet_of};
ghost use Rattle.table.specs.Standing.{Fits};
ghost use Rattle.verdict_text.specs.Checked.{Checked, Proven, SheetLine};
ghost use Rattle.verdict_text.specs.Lines.{line_of};

use fault::Failure;
use reader::{read, smallest};
use rules::{Branch, Counts, Outcome};
use sheet::Sheet;
use std::alloc::{AllocError, Global};
use table::Table;
use table_memory::Memory;
use working::work_through;

const ROW_LIMIT: u8 = 64;

// No `Display`, here and below, which this crate could give only to a type around the outcome and the counts.
fn outcome_line(heap: Global, outcome: Outcome, counts: Counts) -> Result<String, AllocError>
    ensures { IfOk result (λ t. string_bytes t ≡ line_of outcome counts) }
{
    let Counts {
        rows,
        kept,
        merged,
        struck,
        ..
    } = counts;
    match outcome {
        Outcome::Holds => {
            format!(in heap; "holds rows {rows} kept {kept} merged {merged} struck {struck}\n")
        }
        Outcome::Open { waiting, out } => format!(in heap; "open waiting {waiting} out {out}\n"),
        Outcome::Unknown(Branch { row, number }) => {
            format!(in heap; "unknown row {row} branch {number}\n")
        }
        Outcome::Full(Branch { row, number }) => {
            format!(in heap; "full row {row} branch {number}\n")
        }
    }
}

// The table is opened on the sheet, and worked through.
fn table_line(heap: Global, sheet: Sheet, table: &mut Table) -> Result<String, AllocError>
    requires { Fits table.old }
    ensures { IfOk result (λ t. SheetLine (sheet_of sheet) (string_bytes t)) }
{
    match table.open(sheet, ROW_LIMIT) {
        Ok(()) => {
            let outcome = work_through(table);
            outcome_line(heap, outcome, table.counts())
        }
        // The memory fits, so it is the start that is not safe.
        Err(_) => String::from_str(heap, "unknown start\n"),
    }
}

// The same over new memory.
fn sheet_line(heap: Global, sheet: Sheet) -> Result<String, AllocError>
    ensures { IfOk result (λ t. SheetLine (sheet_of sheet) (string_bytes t)) }
{
    let mut memory = Memory::new(heap)?;
    let mut table = Table::new(
        &mut memory.bank,
        &mut memory.rows,
        &mut memory.marks,
        &mut memory.work,
    );
    table_line(heap, sheet, &mut table)
}

/// The line that is printed of the sheet in the bytes, with its line end.
pub fn verdict_line(heap: Global, bytes: &[u8]) -> Result<String, AllocError>
    ensures line { IfOk result (λ t. Checked bytes.now (string_bytes t)) }
    ensures holds { IfOk result (λ t. IsTrue (starts_with nat_eq (string_bytes t) (codes "holds"))
        → Proven bytes.now) }
{
    let mut sheet = smallest(heap)?;
    match read(bytes, heap, &mut sheet) {
        Ok(()) => sheet_line(heap, sheet),
        Err(Failure::Fault(fault)) => format!(in heap; "{fault}\n"),
        // Want of memory has no value to pass on.
        Err(Failure::Memory) => Err(AllocError),
    }
}
