//! How many bits and readings a row of a sheet has.
ghost use Rattle.std.specs.Prelude.{◌≡◌, length};
ghost use Rattle.sheet.specs.View.{sheet_of};

use sheet::Sheet;

/// How many bits a row of the sheet has.
// One field's length, here and below, named for what its contract says.
pub fn bits_of(sheet: &Sheet) -> usize
    ensures { result ≡ length (sheet_of sheet.now).bits }
{
    sheet.parts.bits.len()
}

/// How many readings a row of the sheet has.
pub fn readings_of(sheet: &Sheet) -> usize
    ensures { result ≡ length (sheet_of sheet.now).readings }
{
    sheet.parts.readings.len()
}
