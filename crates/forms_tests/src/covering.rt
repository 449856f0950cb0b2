//! Row 0 covers the starts of a plant whose meaning is no value beyond what sheets ask.
ghost use Rattle.forms.specs.Laws.{StartsCovered};
ghost use Rattle.plant_tests.specs.Odd.{odd};
ghost use Rattle.sheet.specs.View.{sheet_of};

use forms::first_row_covers_model;
use plant_tests::odd::Odd;
use sheet::Sheet;

/// The law that speaks of any model, at the odd one.
pub fn odd_starts_covered(sheet: &Sheet, model: &Odd)
    ensures { StartsCovered (sheet_of sheet.now) odd }
{
    first_row_covers_model(sheet, model);
}
