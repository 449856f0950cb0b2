//! The form of a row at a height.
ghost use Rattle.sheet.specs.View.{sheet_of};
ghost use Rattle.folding.specs.Outcome.{FormBuilt, FormCovering};

use crate::cutting::cut;
use crate::view::View;
use fault::TableFault;
use rows::{MOST_CANDIDATE_CONDITIONS, RowRecord, is_sound};
use sheet::Sheet;
use terms::{Count, TermRecord};

/// The form of a row at a height: high terms are cut, then conditions go. Its terms stay in the bank; on a refusal the
/// bank is as it was.
pub fn form(
    sheet: &Sheet,
    bank: &mut [TermRecord],
    count: &mut Count,
    row: &RowRecord,
    height: u8,
) -> Result<RowRecord, TableFault>
    ensures built { FormBuilt (sheet_of sheet.now) bank.old count.old.terms row.now height bank.new count.new.terms result }
    ensures covers { FormCovering (sheet_of sheet.now) bank.old row.now bank.new result }
{
    let most = MOST_CANDIDATE_CONDITIONS as u8;
    if !is_sound(sheet, bank, count.terms as usize, most, row) {
        return Err(TableFault::BadMemory);
    }
    let before = count.terms;
    let low = cut(sheet, bank, count, height, *row);
    let low = count.or_restored(before, low)?;
    let view = View {
        records: bank,
        count: *count,
    };
    Ok(view.trim_row(sheet, height, low))
}
