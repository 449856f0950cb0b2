//! The calls. A refusal leaves the count and the records that were in use as they were.
ghost use Rattle.std.specs.Prelude.{List};
ghost use Rattle.sheet.specs.View.{sheet_of};
ghost use Rattle.terms.specs.Terms.{Term};
ghost use Rattle.banks.specs.Room.{Holding};
ghost use Rattle.rows.specs.Records.{row_in};
ghost use Rattle.candidates.specs.Outcome.{FirstRowMade, FirstRowCounted, ConditionsMade, ConditionsRefuting, ConditionsCounted, CandidateMade, CandidateCovering, CandidateCounted};

use crate::building::{build, build_conditions};
use crate::conditions::Conditions;
use crate::door::prepare;
use crate::starting::start_row;
use banks::is_bank;
use fault::TableFault;
use rows::RowRecord;
use sheet::Sheet;
use terms::{Count, MOST_TERMS, TermRecord};

/// Row 0 of a sheet: the start bits, a term for each reading's start, and no condition.
pub fn first_row(
    sheet: &Sheet,
    bank: &mut [TermRecord],
    count: &mut Count,
) -> Result<RowRecord, TableFault>
    ensures made { FirstRowMade (sheet_of sheet.now) bank.old count.old.terms bank.new count.new.terms result }
    ensures counted { (seen : List Term) → Holding bank.old count.old.terms seen → FirstRowCounted (sheet_of sheet.now) seen bank.new count.new.terms result }
{
    if bank.len() != MOST_TERMS || !is_bank(bank, count.terms as usize) {
        return Err(TableFault::BadMemory);
    }
    let before = count.terms;
    let made = start_row(sheet, bank, count);
    count.or_restored(before, made)
}

/// The conditions of the candidate of a row on a branch: the questions' before the row's own. All that a strike needs.
pub fn branch_conditions(
    sheet: &Sheet,
    bank: &mut [TermRecord],
    count: &mut Count,
    row: &RowRecord,
    branch: u8,
) -> Result<Conditions, TableFault>
    ensures made { ConditionsMade (sheet_of sheet.now) bank.old count.old.terms row.now branch bank.new count.new.terms result }
    ensures refutes { ConditionsRefuting (sheet_of sheet.now) bank.old row.now branch bank.new result }
    ensures counted { (seen : List Term) → Holding bank.old count.old.terms seen → ConditionsCounted (sheet_of sheet.now) (row_in (sheet_of sheet.now) bank.old row.now) branch seen bank.new count.new.terms result }
{
    let before = count.terms;
    let names = prepare(sheet, bank, *count, row, branch)?;
    let names = &names[..sheet.parts.inputs as usize];
    let made = build_conditions(sheet, bank, count, row, names, branch);
    count.or_restored(before, made)
}

/// The candidate of a row on a branch.
// Not one function with `branch_conditions`: what is built, and the terms for which there must be room, differ.
pub fn candidate(
    sheet: &Sheet,
    bank: &mut [TermRecord],
    count: &mut Count,
    row: &RowRecord,
    branch: u8,
) -> Result<RowRecord, TableFault>
    ensures made { CandidateMade (sheet_of sheet.now) bank.old count.old.terms row.now branch bank.new count.new.terms result }
    ensures covers { CandidateCovering (sheet_of sheet.now) bank.old row.now branch bank.new result }
    ensures counted { (seen : List Term) → Holding bank.old count.old.terms seen → CandidateCounted (sheet_of sheet.now) (row_in (sheet_of sheet.now) bank.old row.now) branch seen bank.new count.new.terms result }
{
    let before = count.terms;
    let names = prepare(sheet, bank, *count, row, branch)?;
    let names = &names[..sheet.parts.inputs as usize];
    let made = build(sheet, bank, count, row, names, branch);
    count.or_restored(before, made)
}
