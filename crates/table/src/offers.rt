//! What a strike, a merge and a keep work out of a row in the bank, and the memory that they leave. Each is a function
//! over the lent memory: the table's own methods test the ticket, the target and the height, and mark the branch.
ghost use Rattle.std.specs.Prelude.{List};
ghost use Rattle.sheet.specs.View.{sheet_of};
ghost use Rattle.terms.specs.Bank.{Extends};
ghost use Rattle.terms.specs.Terms.{Term};
ghost use Rattle.banks.specs.Room.{Holding};
ghost use Rattle.rows.specs.Records.{row_in};
ghost use Rattle.candidates.specs.Outcome.{Kept};
ghost use Rattle.table.specs.Offers.{Workable, Comparable, Refuted, BuiltAs, Covered, Proposed, KeptUnlessMade};

use candidates::{branch_conditions, candidate, is_safe};
use closure::decide;
use fault::TableFault;
use folding::{form, takes};
use rows::RowRecord;
use sheet::Sheet;
use terms::{Count, CountGuard, TermRecord};

/// The joins of two classes into one, where no meaning meets the conditions of the row's branch. The conditions' terms
/// leave the bank again.
pub(crate) fn refute(
    sheet: &Sheet,
    bank: &mut [TermRecord],
    count: &mut Count,
    row: &RowRecord,
    number: u8,
    labels: &mut [u16],
) -> Result<u16, TableFault>
    requires { Workable (sheet_of sheet.now) bank.old count.old.terms row.now number labels.old }
    ensures answer { (seen : List Term) → Holding bank.old count.old.terms seen
        → Refuted (sheet_of sheet.now) (row_in (sheet_of sheet.now) bank.old row.now) number
        seen result }
    ensures kept { Kept bank.old count.old.terms bank.new count.new.terms }
{
    let guard = CountGuard::new(&mut *count);
    let conditions = branch_conditions(sheet, bank, &mut *guard.count, row, number)?;
    let list = &conditions.list[..conditions.used as usize];
    let verdict = decide(bank, *guard.count, list, labels)?;
    if !verdict.impossible {
        return Err(TableFault::Satisfiable);
    }
    Ok(verdict.joins)
}

/// The form of the row's branch at the height, with its candidate's and its cuts' terms in the bank.
fn build(
    sheet: &Sheet,
    bank: &mut [TermRecord],
    count: &mut Count,
    row: &RowRecord,
    number: u8,
    height: u8,
    labels: &[u16],
) -> Result<RowRecord, TableFault>
    requires { Workable (sheet_of sheet.now) bank.old count.old.terms row.now number labels.now }
    ensures built { (seen : List Term) → Holding bank.old count.old.terms seen
        → BuiltAs (sheet_of sheet.now) (row_in (sheet_of sheet.now) bank.old row.now) number
        height seen bank.new count.new.terms result }
    ensures grown { Extends bank.old count.old.terms bank.new count.new.terms }
{
    let next = candidate(sheet, bank, count, row, number)?;
    form(sheet, bank, count, &next, height)
}

/// Whether the older row takes the form of the row's branch. All working terms leave the bank again.
pub(crate) fn cover(
    sheet: &Sheet,
    bank: &mut [TermRecord],
    count: &mut Count,
    row: &RowRecord,
    number: u8,
    older: &RowRecord,
    height: u8,
    labels: &mut [u16],
) -> Result<(), TableFault>
    requires workable { Workable (sheet_of sheet.now) bank.old count.old.terms row.now number
        labels.old }
    requires older { Comparable (sheet_of sheet.now) bank.old count.old.terms older.now }
    ensures answer { (seen : List Term) → Holding bank.old count.old.terms seen
        → Covered (sheet_of sheet.now) (row_in (sheet_of sheet.now) bank.old row.now) number
        (row_in (sheet_of sheet.now) bank.old older.now) height seen result }
    ensures kept { Kept bank.old count.old.terms bank.new count.new.terms }
{
    let guard = CountGuard::new(&mut *count);
    let form = build(sheet, bank, &mut *guard.count, row, number, height, labels)?;
    match takes(sheet, bank, &mut *guard.count, older, &form, labels)? {
        Some(_) => Ok(()),
        None => Err(TableFault::NoRenaming),
    }
}

/// The form of the row's branch, where it is safe. The claims' terms leave the bank again.
fn build_safe(
    sheet: &Sheet,
    bank: &mut [TermRecord],
    count: &mut Count,
    row: &RowRecord,
    number: u8,
    height: u8,
    is_full: bool,
    labels: &mut [u16],
) -> Result<RowRecord, TableFault>
    requires { Workable (sheet_of sheet.now) bank.old count.old.terms row.now number labels.old }
    ensures proposed { (seen : List Term) → Holding bank.old count.old.terms seen
        → Proposed (sheet_of sheet.now) (row_in (sheet_of sheet.now) bank.old row.now) number
        height is_full seen bank.new count.new.terms result }
    ensures grown { Extends bank.old count.old.terms bank.new count.new.terms }
{
    let form = build(sheet, bank, count, row, number, height, labels)?;
    if !is_safe(sheet, bank, count, &form, labels)? {
        return Err(TableFault::UnsafeForm);
    }
    if is_full {
        return Err(TableFault::RowLimit);
    }
    Ok(form)
}

/// The same; a refusal leaves the bank's terms as they were.
pub(crate) fn propose(
    sheet: &Sheet,
    bank: &mut [TermRecord],
    count: &mut Count,
    row: &RowRecord,
    number: u8,
    height: u8,
    is_full: bool,
    labels: &mut [u16],
) -> Result<RowRecord, TableFault>
    requires { Workable (sheet_of sheet.now) bank.old count.old.terms row.now number labels.old }
    ensures proposed { (seen : List Term) → Holding bank.old count.old.terms seen
        → Proposed (sheet_of sheet.now) (row_in (sheet_of sheet.now) bank.old row.now) number
        height is_full seen bank.new count.new.terms result }
    ensures kept { KeptUnlessMade bank.old count.old.terms bank.new count.new.terms result }
{
    let before = count.terms;
    let made = build_safe(sheet, bank, count, row, number, height, is_full, labels);
    count.or_restored(before, made)
}
