//! Row 0 of a newly opened table.
ghost use Rattle.std.specs.Prelude.{◌≡◌, length};
ghost use Rattle.sheet.specs.View.{sheet_of};
ghost use Rattle.table.specs.Offers.{Begun};

use candidates::{first_row, is_safe};
use fault::TableFault;
use rows::RowRecord;
use sheet::Sheet;
use terms::{Count, TermRecord};

/// Row 0 in an empty bank, where it is safe. Row 0 and all claims always have room there.
pub(crate) fn begin(
    sheet: &Sheet,
    bank: &mut [TermRecord],
    count: &mut Count,
    labels: &mut [u16],
) -> Result<RowRecord, TableFault>
    requires empty { count.old.terms ≡ 0 }
    requires bank { length bank.old ≡ 512 }
    requires labels { length labels.old ≡ 512 }
    ensures { Begun (sheet_of sheet.now) bank.new count.new.terms result }
{
    let row = first_row(sheet, bank, count)?;
    if !is_safe(sheet, bank, count, &row, labels)? {
        return Err(TableFault::UnsafeStart);
    }
    Ok(row)
}
