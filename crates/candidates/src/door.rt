//! The tests of a call on a branch, and the inputs' names.
ghost use Rattle.std.specs.Prelude.{◌^◌, ◌<◌, length, Decides};
ghost use Rattle.sheet.specs.View.{sheet_of};
ghost use Rattle.candidates.specs.Working.{Prepared};

use crate::building::questions_of;
use crate::naming::input_names;
use fault::TableFault;
use rows::{MOST_CONDITIONS, RowRecord, is_sound, names_of_row};
use sheet::Sheet;
use terms::{Count, TermRecord};

fn is_branch(sheet: &Sheet, branch: u8) -> bool
    ensures { Decides result (branch < 2 ^ length (sheet_of sheet.now).questions) }
{
    let branches = 1u32 << questions_of(sheet);
    (branch as u32) < branches
}

/// Names for the inputs, once the memory is sound and the branch is one of the sheet's.
pub(crate) fn prepare(
    sheet: &Sheet,
    bank: &[TermRecord],
    count: Count,
    row: &RowRecord,
    branch: u8,
) -> Result<[u8; 4], TableFault>
    ensures { Prepared (sheet_of sheet.now) bank.now count.terms row.now branch result }
{
    if !is_sound(
        sheet,
        bank,
        count.terms as usize,
        MOST_CONDITIONS as u8,
        row,
    ) {
        return Err(TableFault::BadMemory);
    }
    if !is_branch(sheet, branch) {
        return Err(TableFault::NoSuchBranch);
    }
    let taken = names_of_row(sheet, bank, row);
    input_names(taken, sheet.parts.inputs as usize).ok_or(TableFault::NamesExhausted)
}
